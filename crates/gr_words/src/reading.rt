// Words are read by clap.
ghost use Rattle.std.specs.Prelude.{◌≡◌, ◌≢◌, ◌≤◌, ◌⊎◌, [], List, ℕ, map, IfOk, IfErr, IfSome, IfNone, true, false, pos, Some, is_some, string_bytes};
ghost use Rattle.clap.specs.Words.{fault_of, found_of, one_text, one_of, first_of, rows_of};
ghost use Rattle.clap.specs.Values.{IsSignedIn};
ghost use Rattle.clap.specs.Lexer.{without_minus};
ghost use Rattle.gr_words.specs.Commands.{solve_app, check_app, large_app};
ghost use Rattle.gr_words.specs.Meanings.{number_of, is_given, solving, checking, making};
ghost use Rattle.gr_words.specs.Calls.{kind_name, kind_named, is_in_range, can_be_made, options_of, IsWithinLimits};

use crate::arguments::{MOST_REDUCERS, check_command, large_command, solve_command};
use crate::calls::{CheckWords, Kind, LargeWords, SolveWords, WordsError, refusal};
use clap::ArgMatches;
use std::alloc::Global;

/// The words behind `solve`.
pub(crate) fn read_solve<'a>(
    alloc: Global,
    words: &'a [String],
) -> Result<SolveWords<'a>, WordsError>
    ensures lawful { IfOk result (λ s. fault_of solve_app (map string_bytes words.entry.now) ≡ []) }
    ensures meaning { IfOk result (λ s. options_of s ≡ solving (map string_bytes words.entry.now)) }
    ensures limits { IfOk result IsWithinLimits }
    ensures usage { IfErr result (λ e. e ≡ WordsError.Usage
        → fault_of solve_app (map string_bytes words.entry.now) ≢ []) }
{
    let Ok(command) = solve_command(alloc) else {
        return Err(WordsError::OutOfMemory);
    };
    let matches = match command.try_get_matches_from(words) {
        Ok(matches) => matches,
        Err(error) => return Err(refusal(error)),
    };
    Ok(SolveWords {
        cnf: text_at(&matches, "cnf"),
        log: text_at(&matches, "log"),
        reducers: number_at(&matches, "reducers", 0, MOST_REDUCERS),
        conflicts: number_at(&matches, "conflicts", 1, 4_000_000),
        capacity: number_at(&matches, "capacity", 1, 100_000),
        offer: number_at(&matches, "offer", 2, 1_000_000),
        keep_all: is_set(&matches, "keep-all"),
    })
}

/// The words behind `check`.
pub(crate) fn read_check<'a>(
    alloc: Global,
    words: &'a [String],
) -> Result<CheckWords<'a>, WordsError>
    ensures lawful { IfOk result (λ s. fault_of check_app (map string_bytes words.entry.now) ≡ []) }
    ensures meaning { IfOk result (λ s. record { cnf = s.cnf.now; log = s.log.now }
        ≡ checking (map string_bytes words.entry.now)) }
    ensures usage { IfErr result (λ e. e ≡ WordsError.Usage
        → fault_of check_app (map string_bytes words.entry.now) ≢ []) }
{
    let Ok(command) = check_command(alloc) else {
        return Err(WordsError::OutOfMemory);
    };
    let matches = match command.try_get_matches_from(words) {
        Ok(matches) => matches,
        Err(error) => return Err(refusal(error)),
    };
    Ok(CheckWords {
        cnf: text_at(&matches, "cnf"),
        log: text_at(&matches, "log"),
    })
}

/// The words behind `large`.
pub(crate) fn read_large(alloc: Global, words: &[String]) -> Result<LargeWords, WordsError>
    ensures lawful { IfOk result (λ s. fault_of large_app (map string_bytes words.now) ≡ []) }
    ensures meaning { IfOk result (λ s. record { kind = kind_name s.kind; n = s.n }
        ≡ making (map string_bytes words.now)) }
    ensures range { IfOk result (λ s. is_in_range s.kind s.n ≡ true) }
    ensures usage { IfErr result (λ e. e ≡ WordsError.Usage
        → (fault_of large_app (map string_bytes words.now) ≢ [])
        ⊎ (can_be_made (making (map string_bytes words.now)) ≡ false)) }
{
    let Ok(command) = large_command(alloc) else {
        return Err(WordsError::OutOfMemory);
    };
    let matches = match command.try_get_matches_from(words) {
        Ok(matches) => matches,
        Err(error) => return Err(refusal(error)),
    };
    let kind = text_at(&matches, "kind");
    let n = number_at(&matches, "n", 0, u32::MAX);
    match large_of(kind, n) {
        Some(words) => Ok(words),
        None => Err(WordsError::Usage),
    }
}

/// The formula of this kind and number, where such a one can be made.
fn large_of(kind: &str, n: u32) -> Option<LargeWords>
    ensures kind { IfSome result (λ s. kind_name s.kind ≡ kind.now) }
    ensures number { IfSome result (λ s. s.n ≡ n) }
    ensures range { IfSome result (λ s. is_in_range s.kind s.n ≡ true) }
    ensures none { IfNone result (can_be_made (record { kind = kind.now; n = n }) ≡ false) }
{
    let kind = kind_of(kind)?;
    if is_made(kind, n) {
        return Some(LargeWords { kind, n });
    }
    None
}

/// The kind of this name.
fn kind_of(name: &str) -> Option<Kind>
    ensures { result ≡ kind_named name.now }
{
    match name {
        "odd_ring" => Some(Kind::OddRing),
        "pigeons" => Some(Kind::Pigeons),
        _ => None,
    }
}

/// Whether a formula of this kind is made for the number.
fn is_made(kind: Kind, n: u32) -> bool
    ensures { result ≡ is_in_range kind n }
{
    match kind {
        Kind::OddRing => 3 <= n && n <= 999_999 && n % 2 == 1,
        Kind::Pigeons => 2 <= n && n <= 50,
    }
}

/// The text of an argument that has one.
fn text_at<'a>(matches: &ArgMatches<'a>, id: &str) -> &'a str
    requires { is_some (first_of id.now (rows_of (found_of matches.now))) ≡ true }
    ensures { first_of id.now (rows_of (found_of matches.now)) ≡ Some result.now }
{
    matches.get_str(id).unwrap()
}

/// The number of an option that has one.
fn number_at(matches: &ArgMatches<'_>, id: &str, low: u32, high: u32) -> u32
    requires { (t : List ℕ) × (one_text (found_of matches.now) id.now ≡ Some (without_minus t))
        × IsSignedIn (pos low) (pos high) t }
    ensures value { result ≡ number_of (one_of id.now (rows_of (found_of matches.now))) }
    ensures range { (low ≤ result) × (result ≤ high) }
{
    matches.get_one::<u32>(id).unwrap()
}

/// Whether an option without a value is given.
fn is_set(matches: &ArgMatches<'_>, id: &str) -> bool
    ensures { result ≡ is_given (first_of id.now (rows_of (found_of matches.now))) }
{
    match matches.get_str(id) {
        Some(text) => text == "true",
        None => false,
    }
}
