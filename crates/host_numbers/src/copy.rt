// Whole lists into lent ones: as much as there is room for, at the front; what follows stays.
ghost use Rattle.std.specs.Prelude.{◌≡◌, replicate};
ghost use Rattle.std.proofs.lemmas.List.Edits.{sets};
ghost use Rattle.host_numbers.specs.Numbers.{items_of};

pub fn copy_into<T: Copy>(src: &[T], out: &mut [T])
    ensures { out.new ≡ sets out.old 0 src.now }
{
    let n = src.len().min(out.len());
    out[..n].copy_from_slice(&src[..n]);
}

// Zeros behind them.
pub fn padded<const N: usize>(numbers: &[u32]) -> [u32; N]
    ensures { result ≡ sets (replicate N 0) 0 numbers.now }
{
    let mut all = [0; N];
    copy_into(numbers, &mut all);
    all
}

// A list's octets, and zeros; what stands after the 128th is not looked at.
pub fn items_of(s: &[u8]) -> [u8; 128]
    ensures { result ≡ items_of s.now }
{
    let mut items = [0u8; 128];
    copy_into(s, &mut items);
    items
}

pub fn put_items(items: &[u8; 128], out: &mut [u8])
    ensures { out.new ≡ sets out.old 0 items.now }
{
    copy_into(items, out);
}
