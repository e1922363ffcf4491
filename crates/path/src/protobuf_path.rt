// Paths that may be absolute or relative.
ghost use Rattle.std.specs.Prelude.{◌≡◌};
ghost use Rattle.path.specs.Path.{is_path};

use crate::protobuf_abs_path::without_root;
use crate::protobuf_rel_path::all_ident;
use limits::MOST_PATH;

// Whether the text is a path that may lead with a dot.
#[tactic(auto, using(crate::proofs::FormLaws::form_laws))]
pub fn is_path(s: &[u8]) -> bool
    ensures { result ≡ is_path s.now }
{
    if MOST_PATH < s.len() {
        return false;
    }
    all_ident(without_root(s), 0)
}
