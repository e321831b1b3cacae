// Records of an accepted book by their bytes: the check has read them already, so that a kind is known and each number is there.
ghost use Rattle.std.specs.Prelude.{◌≡◌, ◌+◌, ◌*◌, ◌≤◌, length};
ghost use Rattle.book.specs.Field.{number_at_lem};
ghost use Rattle.figure.specs.Record.{path_numbers_lem, numbers_of_lem, marks_of_lem, next_at};

fn number(low: u8, high: u8) -> usize
    ensures { result ≡ low + 256 * high }
{
    (low as usize) + 256 * (high as usize)
}

// The number that stands at a place.
pub fn number_at(book: &[u8], place: usize) -> usize
    requires { place + 2 ≤ length book.now }
    ensures { result ≡ number_at_lem book.now place }
{
    number(book[place], book[place + 1])
}

fn path_numbers(low: usize) -> usize
    ensures { result ≡ path_numbers_lem low }
{
    if low == 0x09 {
        return 2;
    }
    if low == 0x0B {
        return 3;
    }
    4
}

// How many numbers a statement has, source and days apart.
fn numbers_of(kind: u8, low: usize) -> usize
    ensures { result ≡ numbers_of_lem kind low }
{
    if kind == 5 {
        return path_numbers(low);
    }
    if kind == 14 {
        return 3;
    }
    if kind == 16 {
        return 3;
    }
    if kind < 6 {
        return 2;
    }
    if kind < 10 {
        return 1;
    }
    2
}

// How many of source and days a map tells.
fn marks_of(map: usize) -> usize
    ensures { result ≡ marks_of_lem map }
{
    if map < 256 {
        return 0;
    }
    map / 256 % 2 + map / 512 % 2 + map / 1024
}

// Where the statement record behind the one at `at` starts.
pub fn next_at(book: &[u8], at: usize) -> usize
    requires { next_at book.now at ≤ length book.now }
    ensures { result ≡ next_at book.now at }
{
    let map = number_at(book, at + 1);
    at + 3 + 2 * numbers_of(book[at], map % 256) + 2 * marks_of(map)
}
