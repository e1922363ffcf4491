// The fields between two places of lent bytes.
ghost use Rattle.std.specs.Prelude.{◌≤◌, length};

// The fields that are left. The last one is None where what is left is no whole field.
#[derive(Clone, Copy)]
pub struct Fields<'s> {
    pub bytes: &'s [u8],
    pub at: usize,
    pub end: usize,
    ghost inside: { (at ≤ end) × (end ≤ length bytes.now) },
}
