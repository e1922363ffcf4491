// 01's table of replies, once: the refusals, the answer that every public call returns, and the names that programs print.
#![tactic(auto)]

ghost use Rattle.std.specs.Prelude.{◌≡◌, ◌≤◌, length};
ghost use Rattle.reply.specs.Reply.{positions as positions_of, bare as bare_of, refused_for, refused_by};
ghost use Rattle.reply.specs.Reply.{done_with, absent_answer, decided as decided_of};
ghost use Rattle.reply.specs.Reply.{NameOf, most_name};
ghost use Rattle.reply.specs.inner.Table.{code_of, Tabled};
ghost use Rattle.reply.specs.Verdicts.{judged, answer_for};

use octets::wide;

// Why a call is refused, by the names of 01 and of protobuf-parse's OptionResolverError, with 01's number times 100 and the second word.
#[derive(Clone, Copy)]
pub enum Refusal {
    BadSheet = 1_00,
    BadRequest = 2_00,
    BeyondLimit = 3_00,
    ExtensionNotFound = 4_00,
    WrongExtensionType = 5_00,
    ExtensionIsNotMessage = 6_00,
    MessageNotFound = 7_00,
    MessageFoundMoreThanOnce = 8_00,
    UnknownFieldName = 9_00,
    BuiltinOptionNotFound = 10_00,
    BuiltinOptionPointsToNonSingularField = 10_01,
    MessageFieldRequiresMessageConstant = 11_00,
    UnsupportedExtensionType = 12_00,
    UnknownEnumValue = 13_00,
    ValueRange = 14_00,
    StrLitDecodeError = 15_00,
    RangeEnd = 16_00,
    NoRoom = 17_00,
    BadBytes = 18_00,
    WireMismatch = 19_00,
}

// Where a call is refused: nowhere that has a position; at a part of a name that is no option's; at an option, and a part of its name. All
// are counted from 0.
#[derive(Clone, Copy)]
pub enum Where {
    Nowhere,
    Part(u32),
    Option(u32, u32),
}

// Why a call is refused, and where.
#[derive(Clone, Copy)]
pub struct Cause {
    pub why: Refusal,
    pub place: Where,
}

// Stands for a position where there is none. A number and no None: C reads it (`option` and `part` of its record).
pub const NOWHERE: u32 = 65_535;

// The two numbers of a place.
#[derive(Clone, Copy)]
pub struct Positions {
    pub option: u32,
    pub part: u32,
}

// What every public call returns: the reply's number, its second word, 1 for Absent, how much was written to the lent memory, and where it
// was refused, the positions of an option and of a part of its name. C has the same record (include/opt.h).
#[repr(C)]
#[derive(Clone, Copy)]
pub struct Answer {
    pub reply: u32,
    pub second: u32,
    pub absent: u32,
    pub length: u32,
    pub option: u32,
    pub part: u32,
}

impl From<Refusal> for u32 {
    ghost from_gives = { λ why code. code ≡ code_of why };

    fn from(why: Refusal) -> u32 {
        why as u32
    }
}

// Ok where the test holds.
#[tactic(auto, using(crate::proofs::VerdictLaws::judged_false, crate::proofs::VerdictLaws::judged_true))]
pub fn judge(holds: bool, why: Refusal) -> Result<(), Refusal>
    ensures { result ≡ judged why holds }
{
    if holds { Ok(()) } else { Err(why) }
}

impl From<Where> for Positions {
    ghost from_gives = { λ place positions. positions ≡ positions_of place };

    fn from(place: Where) -> Positions {
        match place {
            Where::Nowhere => Positions {
                option: NOWHERE,
                part: NOWHERE,
            },
            Where::Part(part) => Positions {
                option: NOWHERE,
                part,
            },
            Where::Option(option, part) => Positions { option, part },
        }
    }
}

// This refusal, nowhere.
pub fn bare(why: Refusal) -> Cause
    ensures { result ≡ bare_of why }
{
    Cause {
        why: why,
        place: Where::Nowhere,
    }
}

// So `?` makes a refusal one that is nowhere.
impl From<Refusal> for Cause {
    ghost from_gives = { λ why cause. cause ≡ bare_of why };

    fn from(why: Refusal) -> Cause {
        bare(why)
    }
}

// The answer of a refusal: nothing was written.
#[tactic(auto, using(crate::proofs::Rows::row_laws))]
pub fn refused_for(cause: Cause) -> Answer
    ensures { result ≡ refused_for cause }
{
    let code = u32::from(cause.why);
    let positions = Positions::from(cause.place);
    Answer {
        reply: code / 100,
        second: code % 100,
        absent: 0,
        length: 0,
        option: positions.option,
        part: positions.part,
    }
}

// The answer of this refusal, nowhere.
#[tactic(auto, using(crate::proofs::Rows::row_laws))]
pub fn refused(why: Refusal) -> Answer
    ensures { result ≡ refused_by why }
{
    refused_for(bare(why))
}

// The answer of a call that wrote so much.
pub fn done(length: u32) -> Answer
    ensures { result ≡ done_with length }
{
    Answer {
        reply: 0,
        second: 0,
        absent: 0,
        length: length,
        option: NOWHERE,
        part: NOWHERE,
    }
}

// The answer of a call that found nothing to answer.
pub fn absent() -> Answer
    ensures { result ≡ absent_answer }
{
    Answer {
        reply: 0,
        second: 0,
        absent: 1,
        length: 0,
        option: NOWHERE,
        part: NOWHERE,
    }
}

// The answer of a call that answers yes or no.
#[tactic(auto, using(crate::proofs::VerdictLaws::decided_no, crate::proofs::VerdictLaws::decided_yes))]
pub fn decided(holds: bool) -> Answer
    ensures { result ≡ decided_of holds }
{
    Answer {
        reply: 0,
        second: if holds { 1 } else { 0 },
        absent: 0,
        length: 0,
        option: NOWHERE,
        part: NOWHERE,
    }
}

// The answer of a call whose inputs are judged so, and that comes to this length where they are fine.
#[tactic(auto, using(crate::proofs::VerdictLaws::answer_laws))]
pub fn answer_for(length: u32, verdict: Result<(), Refusal>) -> Answer
    ensures { result ≡ answer_for length verdict }
{
    match verdict {
        Ok(()) => done(length),
        Err(why) => refused(why),
    }
}

// The bytes of a row of the table of names: the number, the second word, the length of the name, the name and blanks.
const ROW: usize = 43;

// The name that a table has for this number and this second word, empty where it has none.
fn look_up(rows: &[u8], reply: u32, second: u32) -> &[u8]
    requires { Tabled rows.now }
    ensures is { NameOf reply second result.now }
    ensures within { length result.now ≤ most_name }
{
    let mut at = 0;
    while at < rows.len() {
        if (wide(rows[at]) == reply as usize) & (wide(rows[at + 1]) == second as usize) {
            let from = at + 3;
            let to = from + wide(rows[at + 2]);
            return &rows[from..to];
        }
        at += ROW;
    }
    &rows[..0]
}

// The name of the refusal that has this number and this second word, empty where there is none: 01's table, a row for each refusal.
#[tactic(auto, using(crate::proofs::Names::rows_tabled))]
pub fn name_of(reply: u32, second: u32) -> &'static [u8]
    ensures is { NameOf reply second result.now }
    ensures within { length result.now ≤ most_name }
{
    look_up(
        b"\
    \x01\x00\x08BadSheet                                \
    \x02\x00\x0aBadRequest                              \
    \x03\x00\x0bBeyondLimit                             \
    \x04\x00\x11ExtensionNotFound                       \
    \x05\x00\x12WrongExtensionType                      \
    \x06\x00\x15ExtensionIsNotMessage                   \
    \x07\x00\x0fMessageNotFound                         \
    \x08\x00\x18MessageFoundMoreThanOnce                \
    \x09\x00\x10UnknownFieldName                        \
    \x0a\x00\x15BuiltinOptionNotFound                   \
    \x0a\x01\x25BuiltinOptionPointsToNonSingularField   \
    \x0b\x00\x23MessageFieldRequiresMessageConstant     \
    \x0c\x00\x18UnsupportedExtensionType                \
    \x0d\x00\x10UnknownEnumValue                        \
    \x0e\x00\x0aValueRange                              \
    \x0f\x00\x11StrLitDecodeError                       \
    \x10\x00\x08RangeEnd                                \
    \x11\x00\x06NoRoom                                  \
    \x12\x00\x08BadBytes                                \
    \x13\x00\x0cWireMismatch                            ",
        reply,
        second,
    )
}
