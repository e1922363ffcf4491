// What the leaves of a request may hold, by their tags.
ghost use Rattle.std.specs.Prelude.{◌≡◌};
ghost use Rattle.constantform.specs.Leaves.{is_constant, is_bool, is_url, good_scalar, good_pair_name, good_part};

use ident::protobuf_ident::is_ident;
use limits::MOST_URL;
use path::protobuf_path::is_path;
use path::protobuf_rel_path::is_rel_path;
use request::table;

// Whether the tag is a constant's.
#[tactic(auto, using(crate::proofs::LeafLaws::constant_tag))]
pub fn is_constant(tag: u8) -> bool
    ensures { result ≡ is_constant tag }
{
    ((table::BOOL <= tag) & (tag <= table::MESSAGE_CONSTANT)) | (tag == table::LIST)
}

// Whether the bytes are a bool.
#[tactic(auto, using(crate::proofs::LeafLaws::bool_laws))]
fn is_bool(bytes: &[u8]) -> bool
    ensures { result ≡ is_bool bytes.now }
{
    if bytes.len() != 1 {
        return false;
    }
    bytes[0] <= 1
}

// Whether the bytes are a type URL.
#[tactic(auto, using(crate::proofs::LeafLaws::url_size))]
fn is_url(bytes: &[u8]) -> bool
    ensures { result ≡ is_url bytes.now }
{
    (1 <= bytes.len()) & (bytes.len() <= MOST_URL)
}

// Whether the payload is one of a constant of this tag that is no message and no list.
#[tactic(auto, using(crate::proofs::LeafLaws::scalar_laws))]
pub fn good_scalar(tag: u8, bytes: &[u8]) -> bool
    ensures { result ≡ good_scalar tag bytes.now }
{
    if tag == table::BOOL {
        return is_bool(bytes);
    }
    if tag == table::STRING {
        return true;
    }
    if tag == table::IDENT {
        return is_ident(bytes);
    }
    if (tag == table::UNSIGNED) | (tag == table::SIGNED) | (tag == table::FLOAT) {
        return bytes.len() == 8;
    }
    false
}

// Whether the payload is one of a pair's name of this tag.
#[tactic(auto, using(crate::proofs::LeafLaws::pair_name_laws))]
pub fn good_pair_name(tag: u8, bytes: &[u8]) -> bool
    ensures { result ≡ good_pair_name tag bytes.now }
{
    if tag == table::PAIR_FIELD {
        return is_ident(bytes);
    }
    if tag == table::PAIR_EXTENSION {
        return is_rel_path(bytes);
    }
    if tag == table::PAIR_URL {
        return is_url(bytes);
    }
    false
}

// Whether the payload is one of a part.
#[tactic(auto, using(crate::proofs::LeafLaws::part_leaf_laws))]
pub fn good_part(extension: bool, bytes: &[u8]) -> bool
    ensures { result ≡ good_part extension bytes.now }
{
    if extension {
        return is_path(bytes);
    }
    is_ident(bytes)
}
