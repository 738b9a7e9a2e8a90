// The words of the command line.
ghost use Rattle.std.specs.Prelude.{◌≡◌, ◌++◌, ◌∷◌, [], IfOk, IfErr, OnOk, OnErr, true, false, string_bytes};
ghost use Rattle.gr_words.specs.Calls.{is_lawful, HasLimits, Means};
ghost use Rattle.gr_words.specs.FileNames.{Names};

use crate::calls::{Call, WordsError};
use crate::file_names::Files;
use crate::reading::{read_check, read_large, read_solve};
use gr_logic::OutOfMemory;
use std::alloc::Global;
use std::marker::Model;

/// The command line's words after the program's name: a contract sees the list of their texts.
#[derive(Debug, Drop)]
pub struct Words {
    words: Vec<String>,
}

impl Model for Words {
    ghost use Rattle.std.specs.Prelude.{List, ℕ, map, string_bytes};

    ghost Value = { List (List ℕ) };

    ghost view = { λ words. map string_bytes words.words.items };
}

impl Words {
    /// No words. Takes no memory.
    pub fn new(alloc: Global) -> Words
        ensures { result ≡ [] }
    {
        Words {
            words: Vec::new(alloc),
        }
    }

    /// Appends a word.
    pub fn push(&mut self, word: &str) -> Result<(), OutOfMemory>
        ensures ok { OnOk result (self.new ≡ self.old ++ word.now ∷ []) }
        ensures err { OnErr result (self.new ≡ self.old) }
    {
        let alloc = *self.words.allocator();
        let text = String::from_str(alloc, word)?;
        self.words.push(text)?;
        Ok(())
    }

    /// What the words call for, where they are a lawful command line.
    pub fn call(&self, alloc: Global) -> Result<Call<'_>, WordsError>
        ensures lawful { OnOk result (is_lawful self.now ≡ true) }
        ensures meaning { IfOk result (Means self.now) }
        ensures limits { IfOk result HasLimits }
        ensures usage { IfErr result (λ e. e ≡ WordsError.Usage → is_lawful self.now ≡ false) }
    {
        let Some((first, rest)) = self.words.as_slice().split_first() else {
            return Err(WordsError::Usage);
        };
        match first.as_str() {
            "solve" => match read_solve(alloc, rest) {
                Ok(words) => Ok(Call::Solve(words)),
                Err(error) => Err(error),
            },
            "check" => match read_check(alloc, rest) {
                Ok(words) => Ok(Call::Check(words)),
                Err(error) => Err(error),
            },
            "large" => match read_large(alloc, rest) {
                Ok(words) => Ok(Call::Large(words)),
                Err(error) => Err(error),
            },
            _ => Err(WordsError::Usage),
        }
    }
}

/// The words CNF and LOG, where the words are lawful and their command has these two; else two empty texts.
pub fn files(alloc: Global, words: &Words) -> Result<Files, OutOfMemory>
    ensures { IfOk result (Names words.now) }
{
    match words.call(alloc) {
        Ok(Call::Solve(solve)) => named(alloc, solve.cnf, solve.log),
        Ok(Call::Check(check)) => named(alloc, check.cnf, check.log),
        Ok(Call::Large(_)) => named(alloc, "", ""),
        Err(WordsError::Usage) => named(alloc, "", ""),
        Err(WordsError::OutOfMemory) => Err(OutOfMemory),
    }
}

/// The files of these names.
fn named(alloc: Global, cnf: &str, log: &str) -> Result<Files, OutOfMemory>
    ensures cnf { IfOk result (λ files. string_bytes files.cnf ≡ cnf.now) }
    ensures log { IfOk result (λ files. string_bytes files.log ≡ log.now) }
{
    let cnf = String::from_str(alloc, cnf)?;
    let log = String::from_str(alloc, log)?;
    Ok(Files { cnf, log })
}
