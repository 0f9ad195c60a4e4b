// Doc comments: the Rust's `is_doc_comment`.
ghost use Rattle.std.specs.Prelude.{◌≡◌};
ghost use Rattle.comment.specs.Doc.{is_doc_comment};

// Whether a comment is a doc comment. `/**/` is one, as in the Rust.
#[tactic(auto, using(crate::proofs::doc::Words::begins_is), unfolding(crate::specs::Doc::is_doc_comment, crate::specs::Doc::begins_only, basis::specs::Words::word))]
pub fn is_doc_comment(comment: &[u8]) -> bool
    ensures { result ≡ is_doc_comment comment.now }
{
    comment.starts_with(b"///") && !comment.starts_with(b"////")
        || comment.starts_with(b"/**") && !comment.starts_with(b"/***")
}
