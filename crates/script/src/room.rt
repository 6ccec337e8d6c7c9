// The buffers that a bench lends.
ghost use Rattle.std.specs.Prelude.{◌≡◌};
ghost use Rattle.script.specs.Rooms.{zeros};

// Room for the octets of the longest line.
pub fn line_room() -> [u8; 2048]
    ensures { result ≡ zeros 2048 }
{
    [0; 2048]
}

// Twice what a full page has: room for the answer to any line.
pub fn page_room() -> [u8; 131072]
    ensures { result ≡ zeros 131072 }
{
    [0; 131072]
}
