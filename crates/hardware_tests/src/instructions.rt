//! The table of operations, and a word as a line.

use ka_isa::{
    Change, Family, Fields, Named, classify, decode, encode, mnemonic, name_count, name_round_trip,
    named, text_of,
};
use std::process::Abort;
use word36::Word;

/// The halves of a word.
type Halves = (u32, u32);

/// The fields of a word: its operation, accumulator, indirect bit, index register and address.
type FieldsOf = (u16, u8, bool, u8, u32);

/// What holds of an operation, a name or a word.
enum Row {
    /// The fields of a word.
    Decodes(Halves, FieldsOf),
    /// The word of some fields.
    Encodes(FieldsOf, Halves),
    /// The name of an operation, which means its word.
    Operation(u16, &'static str),
    /// No name is that of this operation, and it is of no family.
    NoOperation(u16),
    /// How many names there are.
    NameCount(usize),
    /// A name, the word that it means, and whether an accumulator and an address may follow.
    Call(&'static str, Halves, bool, bool),
    /// No name.
    NoName(&'static str),
    /// The line of a word.
    Line(Halves, &'static str),
    /// The family of an operation.
    FamilyOf(u16, Family),
}

/// The word of two halves.
fn word(halves: Halves) -> Word {
    Word::join(halves.0 & 0o777_777, halves.1 & 0o777_777)
}

/// Whether a word has these fields.
fn decodes(word: Word, wanted: FieldsOf) -> bool {
    let fields = decode(word);
    fields.op == wanted.0
        && fields.ac == wanted.1
        && fields.i == wanted.2
        && fields.x == wanted.3
        && fields.y == wanted.4
}

/// The word of some fields.
fn instruction(fields: FieldsOf) -> Word {
    encode(Fields {
        op: fields.0 & 0o777,
        ac: fields.1 & 0o17,
        i: fields.2,
        x: fields.3 & 0o17,
        y: fields.4 & 0o777_777,
    })
}

/// Whether this is what may be known of a name: its word, and that an accumulator and an address may follow.
fn means(known: Option<Named>, word: Word, ac: bool, addr: bool) -> bool {
    known == Some(Named { word, ac, addr })
}

/// Whether an operation has this name, which means its word.
fn is_named(op: u16, name: &str) -> bool {
    let word = Word::low_bits(u64::from(op) << 27);
    let known = match mnemonic(op) {
        Some(known) => known == name,
        None => false,
    };
    known && means(named(name), word, true, true) && means(name_round_trip(op), word, true, true)
}

impl Row {
    /// Whether it holds.
    fn holds(&self) -> bool {
        match self {
            Row::Decodes(halves, fields) => decodes(word(*halves), *fields),
            Row::Encodes(fields, halves) => instruction(*fields).halves() == *halves,
            Row::Operation(op, name) => is_named(*op, name),
            Row::NoOperation(op) => mnemonic(*op).is_none() && classify(*op) == Family::Other,
            Row::NameCount(count) => name_count() == *count,
            Row::Call(name, halves, ac, addr) => means(named(name), word(*halves), *ac, *addr),
            Row::NoName(name) => named(name).is_none(),
            Row::Line(halves, line) => text_of(word(*halves)).as_str() == *line,
            Row::FamilyOf(op, family) => classify(*op) == *family,
        }
    }
}

/// The rows of a table, and its name.
struct Table {
    name: &'static str,
    rows: &'static [Row],
}

/// Walks the rows of a table of this name: each must hold.
fn walk(rt: &impl Abort, name: &str, rows: &[Row]) {
    for (i, row) in rows.iter().enumerate() {
        assert!(rt; row.holds(), "{name}, row {i}");
    }
}

/// The rows of `families`.
static FAMILIES: [Row; 6] = [
    Row::FamilyOf(0o137, Family::Byte),
    Row::FamilyOf(0o242, Family::Shift),
    Row::FamilyOf(0o353, Family::SkipOn(Change::Up)),
    Row::FamilyOf(0o360, Family::JumpOn(Change::Down)),
    Row::FamilyOf(0o577, Family::Half),
    Row::FamilyOf(0o677, Family::Test),
];

#[test]
fn families(rt: HostRuntime) {
    walk(&rt, "FAMILIES", &FAMILIES);
}

/// All tables but those that have a test of their own.
static TABLES: [Table; 4] = [
    Table {
        name: "fields_of_words",
        rows: &[
            Row::Decodes((0o201040, 5), (0o201, 1, false, 0, 5)),
            Row::Decodes((0o777777, 0o777777), (0o777, 0o17, true, 0o17, 0o777777)),
            Row::Encodes((0, 0, true, 0, 0), (0o20, 0)),
            Row::Encodes((0, 0, false, 1, 0), (1, 0)),
            Row::Encodes((0o254, 4, false, 0, 0o140), (0o254200, 0o140)),
        ],
    },
    Table {
        name: "names_by_code_and_back",
        rows: &[
            Row::Operation(0o047, "CALLI"),
            Row::Operation(0o133, "IBP"),
            Row::Operation(0o200, "MOVE"),
            Row::Operation(0o211, "MOVNI"),
            Row::Operation(0o223, "IMULB"),
            Row::Operation(0o240, "ASH"),
            Row::Operation(0o246, "LSHC"),
            Row::Operation(0o250, "EXCH"),
            Row::Operation(0o253, "AOBJN"),
            Row::Operation(0o260, "PUSHJ"),
            Row::Operation(0o265, "JSP"),
            Row::Operation(0o272, "ADDM"),
            Row::Operation(0o305, "CAIGE"),
            Row::Operation(0o316, "CAMN"),
            Row::Operation(0o323, "JUMPLE"),
            Row::Operation(0o334, "SKIPA"),
            Row::Operation(0o344, "AOJA"),
            Row::Operation(0o377, "SOSG"),
            Row::Operation(0o443, "ANDCBB"),
            Row::Operation(0o476, "SETOM"),
            Row::Operation(0o523, "HLLOS"),
            Row::Operation(0o602, "TRNE"),
            Row::Operation(0o650, "TDC"),
            Row::Operation(0o625, "TLZA"),
            Row::Operation(0o677, "TSON"),
            Row::NoOperation(0),
            Row::NoOperation(0o37),
            Row::NoOperation(0o46),
            Row::NoOperation(0o50),
            Row::NoOperation(0o132),
            Row::NoOperation(0o140),
            Row::NoOperation(0o177),
            Row::NoOperation(0o234),
            Row::NoOperation(0o244),
            Row::NoOperation(0o247),
            Row::NoOperation(0o257),
            Row::NoOperation(0o700),
            Row::NoOperation(0o777),
            Row::NoOperation(0o1000),
            // 2 calls, 5 of bytes, 16 moves, 12 of multiplying and dividing, 6 shifts with JFFO, 7 from EXCH
            // to XCT, 8 from PUSHJ to JRA, 8 sums, and 64 comparisons, Booleans, halves and tests each; 28 calls
            Row::NameCount(2 + 5 + 16 + 12 + 6 + 7 + 8 + 8 + 4 * 64 + 28),
        ],
    },
    Table {
        name: "calls_by_name",
        rows: &[
            Row::Call("RESET", (0o047000, 0), true, false),
            Row::Call("ENQ.", (0o047000, 0o151), true, false),
            Row::Call("DATRD.", (0o047000, 0o777776), true, false),
            Row::Call("DATWR.", (0o047000, 0o777775), true, false),
            Row::Call("MONRT.", (0o047040, 0o12), false, false),
            Row::Call("INCHRW", (0o051000, 0), false, true),
            Row::Call("OUTSTR", (0o051140, 0), false, true),
            Row::Call("SKPINL", (0o051600, 0), false, true),
            Row::Call("HALT", (0o254200, 0), false, true),
            Row::Call("JRSTF", (0o254100, 0), false, true),
            Row::NoName(""),
            Row::NoName("A"),
            Row::NoName("MOV"),
            Row::NoName("MOVEE"),
            Row::NoName("move"),
            Row::NoName("ENQ"),
            Row::NoName("ENQ.X"),
            Row::NoName("MOVE "),
            Row::NoName("ZZZZZZ"),
            Row::NoName("END"),
        ],
    },
    Table {
        name: "words_as_lines",
        rows: &[
            Row::Line((0o201040, 5), "MOVEI 1,5"),
            Row::Line((0o047040, 0o151), "CALLI 1,151"),
            Row::Line((0o254000, 0o140), "JRST 140"),
            Row::Line((0o051140, 0o143), "TTCALL 3,143"),
            Row::Line((0o550057, 4), "HRRZ 1,4(17)"),
            Row::Line((0o350020, 0), "AOS @0"),
            Row::Line((0o051777, 0o777777), "TTCALL 17,@777777(17)"),
            Row::Line((0, 0), "XWD 0,0"),
            Row::Line((0o777777, 0o777777), "XWD 777777,777777"),
            Row::Line((0o000001, 0o10), "XWD 1,10"),
            Row::Line((0o442220, 0), "ANDCBM 4,@0"),
        ],
    },
];

#[test]
fn tables_hold(rt: HostRuntime) {
    for table in &TABLES {
        walk(&rt, table.name, table.rows);
    }
}
