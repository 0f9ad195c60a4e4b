// C names of the words and of what is asked of a word: texts go in as bytes, and a token as its number.
ghost use Rattle.std.specs.Prelude.{◌≡◌};
ghost use Rattle.identifier.specs.Valid.{is_valid_identifier};
ghost use Rattle.keywords.specs.Lookup.{lookup_of};
ghost use Rattle.lent.specs.Written.{written_of, left_of};
ghost use Rattle.c_answer.specs.Packed.{written_as_number};
ghost use Rattle.c_words.specs.TokenNumbers.{lookup_as_number};
ghost use Rattle.syntax.specs.Syntax.{literal_syntax_of};

// A token, or none.
pub(crate) fn lookup_as_number(l: Option<u8>) -> u64
    ensures { result ≡ lookup_as_number l }
{
    match l {
        Some(t) => t as u64,
        None => 256,
    }
}

// A token, or 256 for none.
#[unsafe(no_mangle)]
pub extern "C" fn stew_lookup_symbol_from_syntax(text: &[u8]) -> u64
    ensures { result ≡ lookup_as_number (lookup_of text.now) }
{
    let found = keywords::lookup_symbol_from_syntax(text);
    lookup_as_number(found)
}

// The length, or 9 times 2^32 where the text has no room.
#[unsafe(no_mangle)]
pub extern "C" fn stew_literal_syntax(token: u8, out: &mut [u8]) -> u64
    ensures value { result ≡ written_as_number (written_of (literal_syntax_of token) out.old) }
    ensures out_after { out.new ≡ left_of (literal_syntax_of token) out.old }
{
    c_answer::written_as_number(syntax::literal_syntax(token, out))
}

#[unsafe(no_mangle)]
pub extern "C" fn stew_is_valid_identifier(name: &[u8]) -> bool
    ensures { result ≡ is_valid_identifier name.now }
{
    identifier::valid::is_valid_identifier(name)
}
