// Absolute paths: a leading dot, then a path.
ghost use Rattle.std.specs.Prelude.{◌≡◌};
ghost use Rattle.path.specs.Path.{is_abs, rootless};

// Whether the text leads with a dot.
#[tactic(auto, using(crate::proofs::AbsLaws::abs_laws))]
pub fn is_abs(s: &[u8]) -> bool
    ensures { result ≡ is_abs s.now }
{
    if s.len() == 0 {
        return false;
    }
    s[0] == b'.'
}

// The text without its leading dot.
#[tactic(auto, using(crate::proofs::AbsLaws::abs_laws))]
pub fn without_root(s: &[u8]) -> &[u8]
    ensures { result.now ≡ rootless s.now }
{
    if is_abs(s) {
        return &s[1..];
    }
    &s[..]
}
