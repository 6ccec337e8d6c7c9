// The parts of PDUs as types: each has its codec, a reader and a writer; one that may be absent also has what is read then.
ghost use Rattle.std.specs.Prelude.{◌≡◌};
ghost use Rattle.per.specs.Codec.{Codec};
ghost use Rattle.per.specs.Formats.{when};
ghost use Rattle.per.specs.Reading.{Reads};
ghost use Rattle.per.specs.Writing.{Writes};

use crate::cursor::{Cursor, Read};
use crate::pen::Pen;

// A part of a PDU. Its value is mostly the type itself; a part with a range of its own is a type with no value, as `SignedIn`.
pub trait Part {
    type Value: Drop;

    ghost codec: { Codec Self.Value };

    fn read(c: Cursor, s: &[u8]) -> Read<Self::Value>
        ensures { Reads codec s.now c result.value result.next };

    fn write(p: Pen, out: &mut [u8; 128], a: Self::Value) -> Pen
        ensures { Writes codec out.old p a result out.new };
}

// A part that stands only where it is present.
pub trait Element: Part {
    ghost none: { Self.Value };

    // What is read where it is absent.
    fn none() -> Self::Value
        ensures { result ≡ none };

    fn read_if(c: Cursor, s: &[u8], present: bool) -> Read<Self::Value>
        ensures { Reads (when present none Self.codec) s.now c result.value result.next }
    {
        if present {
            return Self::read(c, s);
        }
        Read {
            value: Self::none(),
            next: c,
        }
    }

    fn write_if(p: Pen, out: &mut [u8; 128], present: bool, a: Self::Value) -> Pen
        ensures { Writes (when present none Self.codec) out.old p a result out.new }
    {
        if present {
            return Self::write(p, out, a);
        }
        p
    }
}
