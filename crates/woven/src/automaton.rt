// The automaton that the search reads: its transitions as words, by symbol.
ghost use Rattle.woven.specs.Ready.{Ready, SymbolRun};
ghost use Rattle.std.specs.Prelude.{◌<◌};

use crate::HEADS;
use tables::TRANSITIONS;

// The transitions as words and where each symbol's begin, the arities of the listed symbols, and how many states there are.
#[derive(Clone, Copy)]
pub struct Automaton<'a> {
    pub words: &'a [u64; TRANSITIONS],
    pub heads: &'a [u8; HEADS],
    pub arities: &'a [u8],
    pub states: usize,
    pub ghost ready: { Ready arities.now words.now heads.now states },
}

impl<'a> Automaton<'a> {
    // The run of words that the symbol f has.
    pub fn words_of(self, f: u8) -> &'a [u64]
        requires { f < 64 }
        ensures { SymbolRun self.entry.words.now self.entry.heads.now f result.now }
    {
        let words = self.words;
        let heads = self.heads;
        let at = f as usize;
        &words[heads[at] as usize..heads[at + 1] as usize]
    }
}
