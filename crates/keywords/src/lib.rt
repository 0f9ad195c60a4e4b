// Keywords and symbols: which token a text is, by the list of `token`.
#![tactic(auto)]

ghost use Rattle.std.specs.Prelude.{◌≡◌, ◌≤◌, length};
ghost use Rattle.token.specs.Spelt.{word_number};
ghost use Rattle.keywords.specs.Lookup.{lookup_of};

use token::tokens::EOF;
use token::word_table;

// No listed text is longer, and so a machine's word holds each as a number.
const LONGEST: usize = 8;

// A text as one number.
fn number_of(text: &[u8]) -> u64
    requires { length text.now ≤ 8 }
    ensures { result ≡ word_number text.now }
{
    let mut v = 0;
    for b in text {
        v = v * 256 + u64::from(*b);
    }
    v
}

// The token of a keyword or symbol; none for any other text. Most names are none because no listed
// text has their first byte and their length. For the others it walks the tokens whose texts begin
// with that byte, four at most, and compares numbers.
pub fn lookup_symbol_from_syntax(text: &[u8]) -> Option<u8>
    ensures { result ≡ lookup_of text.now }
{
    let [first, ..] = text else {
        return None;
    };
    if LONGEST < text.len() || (word_table::lengths_of(*first) >> text.len()) % 2 == 0 {
        return None;
    }
    let v = number_of(text);
    let mut token = word_table::first_of(*first);
    while token != EOF {
        if word_table::spelt(token) == v {
            return Some(token);
        }
        token = word_table::next_of(token);
    }
    None
}
