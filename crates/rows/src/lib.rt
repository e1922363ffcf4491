// A row as words of lent memory.
#![tactic(auto)]

ghost use Rattle.std.specs.Prelude.{◌≡◌, ◌+◌, ◌^◌, ◌<◌};
ghost use Rattle.basis.specs.Kit.{sets};
ghost use Rattle.entries.specs.Tree.{words};

use entries::Row;

// The eight words of a row, from a place on, as far as there is room; and the place after them.
pub fn put_row(out: &mut [u32], at: usize, row: Row) -> usize
    requires { at < 2 ^ 63 }
    ensures laid { out.new ≡ sets out.old at (words row) }
    ensures counted { result ≡ at + 8 }
{
    let words = [
        row.level,
        row.entry.number,
        row.entry.typ as u32,
        row.entry.wire as u32,
        row.entry.place,
        row.entry.size,
        (row.entry.value % 0x1_0000_0000) as u32,
        (row.entry.value / 0x1_0000_0000) as u32,
    ];
    octets::put_all(out, at, &words)
}
