// The bytes of a character in UTF-8: Unicode's Table 3-6, written into lent memory.
ghost use Rattle.std.specs.Prelude.{◌≡◌, ◌+◌, ◌≤◌, ◌<◌, length};
ghost use Rattle.std.proofs.lemmas.List.Edits.{sets};
ghost use Rattle.basis.specs.Store.{stored, after};
ghost use Rattle.utf8.specs.Encode.{encode, encoded};

// How many bytes a scalar value's encoding has.
#[tactic(auto, using(crate::proofs::Encodes::enc1, crate::proofs::Encodes::enc2, crate::proofs::Encodes::enc3, crate::proofs::Encodes::enc4))]
fn size(c: u32) -> usize
    ensures { result ≡ length (encode c) }
{
    match c {
        0..=0x7F => 1,
        0x80..=0x7FF => 2,
        0x800..=0xFFFF => 3,
        _ => 4,
    }
}

// The encoding written where there is room for it; the index after it.
fn write(c: u32, out: &mut [u8], at: usize) -> usize
    requires { (c < 0x110000) × (at + length (encode c) ≤ length out.old) }
    ensures { (result ≡ at + length (encode c)) × (out.new ≡ sets out.old at (encode c)) }
{
    if c < 0x80 {
        out[at] = c as u8;
        return at + 1;
    }
    if c < 0x800 {
        out[at] = (0xC0 + c / 64) as u8;
        out[at + 1] = (0x80 + c % 64) as u8;
        return at + 2;
    }
    if c < 0x10000 {
        out[at] = (0xE0 + c / 64 / 64) as u8;
        out[at + 1] = (0x80 + c / 64 % 64) as u8;
        out[at + 2] = (0x80 + c % 64) as u8;
        return at + 3;
    }
    out[at] = (0xF0 + c / 64 / 64 / 64) as u8;
    out[at + 1] = (0x80 + c / 64 / 64 % 64) as u8;
    out[at + 2] = (0x80 + c / 64 % 64) as u8;
    out[at + 3] = (0x80 + c % 64) as u8;
    at + 4
}

// The encoding of a scalar value written at an index where it fits, and the index after it. Where it does not fit, or for a
// number that is no scalar value, nothing is written, and the index is the one given.
pub fn put(c: u32, out: &mut [u8], at: usize) -> usize
    ensures value { result ≡ after out.old at (encoded c) }
    ensures out_after { out.new ≡ stored out.old at (encoded c) }
{
    if crate::is_scalar(c) && at <= out.len() && size(c) <= out.len() - at {
        write(c, out, at)
    } else {
        at
    }
}
