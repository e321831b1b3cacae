// The statements of the small books, in the order of their bytes.
ghost use Rattle.std.specs.Prelude.{◌≡◌, ◌+◌, ◌≤◌, ◌<◌, length};
ghost use Rattle.book.specs.Bytes.{statement_bytes};
ghost use Rattle.small.specs.Statements.{statement_at_lem};
ghost use Rattle.small.specs.Laying.{added, field_bytes, row_of, row_bytes};

use super::laid::SmallBook;

// A statement is a row of three bytes: its kind, its map, and its fields, which are 0 or 1, at the bits that the map has for them.
static STATEMENTS: [u32; 73] = [
    0x013000, // SubClassOf
    0x023000, // EquivalentClasses
    0x033000, // DisjointClasses
    0x040300, // InverseObjectProperties
    0x040302, 0x040301, 0x040303, 0x050900, // SubObjectPropertyOf: a path of one,
    0x050908, 0x050901, 0x050909, 0x050B00, // of two,
    0x050B08, 0x050B02, 0x050B0A, 0x050B01, 0x050B09, 0x050B03, 0x050B0B, 0x050F00, // of three
    0x050F08, 0x050F04, 0x050F0C, 0x050F02, 0x050F0A, 0x050F06, 0x050F0E, 0x050F01, 0x050F09,
    0x050F05, 0x050F0D, 0x050F03, 0x050F0B, 0x050F07, 0x050F0F, 0x060100, // TransitiveRole
    0x060101, 0x070100, // SymmetricRole
    0x070101, 0x080100, // FunctionalRole
    0x080101, 0x090100, // InverseFunctionalRole
    0x090101, 0x0A1100, // ObjectPropertyDomain
    0x0A1101, 0x0B1100, // ObjectPropertyRange
    0x0B1101, 0x0CC000, // SameIndividual
    0x0CC080, 0x0CC040, 0x0CC0C0, 0x0D5000, // ClassAssertion
    0x0D5040, 0x0EC100, // ObjectPropertyAssertion
    0x0EC180, 0x0EC140, 0x0EC1C0, 0x0EC101, 0x0EC181, 0x0EC141, 0x0EC1C1, 0x0FC000, // DifferentIndividuals
    0x0FC080, 0x0FC040, 0x0FC0C0, 0x10C100, // NegativeObjectPropertyAssertion
    0x10C180, 0x10C140, 0x10C1C0, 0x10C101, 0x10C181, 0x10C141, 0x10C1C1,
];

// The field of the lowest bit, if it is set.
fn put_field(book: &mut SmallBook, map: u32, values: u32)
    requires { book.old.length + length (field_bytes 1 map values) ≤ 37 }
    ensures { book.new ≡ added book.old (field_bytes 1 map values) }
{
    if map % 2 != 0 {
        book.push((values % 2) as u8);
        book.push(0);
    }
}

// The fields of all bits, lowest first.
fn put_fields(book: &mut SmallBook, map: u32, values: u32)
    requires { book.old.length + length (field_bytes 8 map values) ≤ 37 }
    ensures { book.new ≡ added book.old (field_bytes 8 map values) }
{
    for bit in 0..8u32 {
        put_field(book, map >> bit, values >> bit);
    }
}

// The record of a row of the table; the high byte of its map is 0.
fn put_row(book: &mut SmallBook, row: u32)
    requires { book.old.length + length (row_bytes row) ≤ 37 }
    ensures { book.new ≡ added book.old (row_bytes row) }
{
    let kind = row / 65536 % 256;
    let map = row / 256 % 256;
    book.push(kind as u8);
    book.push(map as u8);
    book.push(0);
    put_fields(book, map, row % 256);
}

// The row of statement i.
fn row_at(i: usize) -> u32
    requires { i < 73 }
    ensures { result ≡ row_of (statement_at_lem i) }
{
    STATEMENTS[i]
}

// Statement i behind the bytes so far.
pub fn put_statement(book: &mut SmallBook, i: usize)
    requires { (i < 73) × (book.old.length + 11 ≤ 37) }
    ensures { book.new ≡ added book.old (statement_bytes (statement_at_lem i)) }
{
    put_row(book, row_at(i));
}
