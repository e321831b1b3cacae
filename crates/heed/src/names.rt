// What a run names: a reader with the table of what each may read, a day, both or neither.
ghost use Rattle.heed.specs.Names.{Fault};

use book::refusal::Refusal;

// Bit `number` of a source's word in the table says that this reader may read the source.
#[derive(Clone, Copy)]
pub struct Reader<'a> {
    pub number: u32,
    pub table: &'a [u32],
}

#[derive(Clone, Copy)]
pub struct Names<'a> {
    pub reader: Option<Reader<'a>>,
    pub day: Option<u16>,
}

// The refusal of a reader or of his table. A day has none.
pub fn fault(names: Names) -> Result<(), Refusal>
    ensures { Fault names.entry result }
{
    if let Some(reader) = names.reader {
        if reader.number > 31 {
            return Err(Refusal::UnknownReader);
        }
        if reader.table.len() != 1024 {
            return Err(Refusal::WrongTable);
        }
    }
    Ok(())
}
