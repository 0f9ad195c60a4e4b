// Valid identifiers: the Rust's `is_valid_identifier`.
ghost use Rattle.std.specs.Prelude.{◌≡◌, ◌≤◌, length, drop};
ghost use Rattle.identifier.specs.Valid.{after_underscores, all_continue, is_valid_identifier};

// How many underscores a text begins with. Here and below by index: with `position` and `all` a run over words takes a seventh longer.
fn underscores(name: &[u8]) -> usize
    ensures { (drop result name.now ≡ after_underscores name.now) × (result ≤ length name.now) }
{
    let mut i = 0;
    while i < name.len() {
        if name[i] != b'_' {
            return i;
        }
        i += 1;
    }
    i
}

// Whether every byte from an index on goes on an identifier.
fn goes_on(name: &[u8], from: usize) -> bool
    requires { from ≤ length name.now }
    ensures { result ≡ all_continue (drop from name.now) }
{
    let mut i = from;
    while i < name.len() {
        if classes::is_id_continue(name[i] as u32) {
            i += 1;
        } else {
            return false;
        }
    }
    true
}

// Whether a text is an identifier: underscores, then a letter, then anything allowed.
pub fn is_valid_identifier(name: &[u8]) -> bool
    ensures { result ≡ is_valid_identifier name.now }
{
    let i = underscores(name);
    if name.len() <= i {
        return false;
    }
    if classes::is_id_first_alphabetic(name[i] as u32) {
        return goes_on(name, i + 1);
    }
    false
}
