// The view: the lent file, a place in it and the place's line. The public reading goes through it: each function over a view takes it apart and
// calls a function on the slice and the numbers.
#![tactic(auto)]

ghost use Rattle.std.specs.Prelude.{◌≡◌, ◌<◌, length, drop};

use fields::cursor::Cursor;

// A file, a place in it, and the number of its line.
#[derive(Clone, Copy)]
pub struct View<'a> {
    pub file: &'a [u8],
    pub at: usize,
    pub line: u32,
}

// How many bytes are left from a place on: none past the end.
pub fn left_at(file: &[u8], at: usize) -> usize
    ensures { result ≡ length (drop at file.now) }
{
    file.len().saturating_sub(at)
}

impl<'a> View<'a> {
    // A view at the start of a file: its first line is line 1.
    pub fn over(file: &'a [u8]) -> View<'a>
        ensures { (result.file ≡ file.entry) × (result.at ≡ 0) × (result.line ≡ 1) }
    {
        View {
            file,
            at: 0,
            line: 1,
        }
    }

    // Its place.
    pub fn place(self) -> usize
        ensures { result ≡ self.entry.at }
    {
        self.at
    }

    // How many bytes are left.
    pub fn left(self) -> usize
        ensures { result ≡ length (drop self.entry.at self.entry.file.now) }
    {
        left_at(self.file, self.at)
    }

    // A view of the same file at the next line.
    pub fn go_on(self, next: Cursor) -> View<'a>
        ensures { (result.file ≡ self.entry.file) × (result.at ≡ next.at) × (result.line ≡ next.line) }
    {
        View {
            file: self.file,
            at: next.at,
            line: next.line,
        }
    }
}
