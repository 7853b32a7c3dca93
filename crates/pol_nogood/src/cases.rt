ghost use Rattle.std.specs.Prelude.{◌≡◌, ◌≢◌, ◌==◌, ◌++◌, length, AllPairs};
ghost use Rattle.std.specs.Bool.{OnTrue, OnFalse};
ghost use Rattle.std.specs.List.{list_any, list_all};
ghost use Rattle.pol_nogood.specs.LogFaults.{same_pair, contained_in, pairs_placed, ascending_pairs};
ghost use Rattle.pol_nogood.specs.Nogoods.{Pair};
ghost use Rattle.pol_nogood.specs.Logs.{reading, is_case};
ghost use Rattle.pol_nogood.specs.FirstPlaces.{first_place, AreFirstPlaces, agrees_at, agrees_first};

use crate::Nogood;
use crate::nogood::MOST_PAIRS;

/// Whether the nogood has a pair of the variable.
pub fn names(nogood: &Nogood, v: u32) -> bool
    ensures named { result ≡ list_any (λ p. p.variable == v) nogood.now }
{
    for i in 0..nogood.len() {
        let (variable, _) = nogood.pair(i);
        if variable == v {
            return true;
        }
    }
    false
}

/// Whether the pairs are of the first `n` variables and of values of a domain of size `d`.
pub fn pairs_placed(nogood: &Nogood, n: u32, d: u8) -> bool
    ensures placed { result ≡ pairs_placed n d nogood.now }
{
    for i in 0..nogood.len() {
        let (variable, value) = nogood.pair(i);
        if variable >= n || value >= d {
            return false;
        }
    }
    true
}

/// Whether the variables of the pairs ascend strictly.
pub fn is_ascending(nogood: &Nogood) -> bool
    ensures ascending { result ≡ ascending_pairs nogood.now }
{
    for i in 1..nogood.len() {
        let (before, _) = nogood.pair(i - 1);
        let (variable, _) = nogood.pair(i);
        if before >= variable {
            return false;
        }
    }
    true
}

/// Whether the pair is one of the nogood.
fn has_pair(nogood: &Nogood, variable: u32, value: u8) -> bool
    ensures member { let p : Pair = record { variable = variable; value = value } in
        result ≡ list_any (λ q. same_pair p q) nogood.now }
{
    for i in 0..nogood.len() {
        let (other, other_value) = nogood.pair(i);
        if variable == other && value == other_value {
            return true;
        }
    }
    false
}

/// Whether the row gives the variable the value at some place of the scope.
fn reads(scope: &[u32], row: &[u8], variable: u32, value: u8) -> bool
    ensures read { let p : Pair = record { variable = variable; value = value } in
        result ≡ list_any (λ q. same_pair p q) (reading scope.now row.now) }
{
    for (other, other_value) in scope.iter().zip(row) {
        if variable == *other && value == *other_value {
            return true;
        }
    }
    false
}

/// The first place of the variable in the scope.
fn first_place(scope: &[u32], x: u32) -> Option<usize>
    ensures place { result ≡ first_place scope.now x }
{
    scope.iter().position(|variable| *variable == x)
}

/// Of each pair of the nogood, the first place of its variable in the scope.
pub fn first_places(nogood: &Nogood, scope: &[u32]) -> [Option<usize>; MOST_PAIRS]
    ensures places { AreFirstPlaces scope.now nogood.now result }
{
    let mut places = [None; MOST_PAIRS];
    for i in 0..nogood.len() {
        let (variable, _) = nogood.pair(i);
        places[i as usize] = first_place(scope, variable);
    }
    places
}

/// Whether some variable stands at two places of the scope.
pub fn repeats(scope: &[u32]) -> bool
    ensures repeated { OnTrue result (¬ AllPairs (λ x y. x ≢ y) scope.now) }
    ensures distinct { OnFalse result (AllPairs (λ x y. x ≢ y) scope.now) }
{
    for place in 0..scope.len() {
        if scope[..place].contains(&scope[place]) {
            return true;
        }
    }
    false
}

/// Whether the row has no other value at the place.
fn agrees_at(row: &[u8], place: Option<usize>, value: u8) -> bool
    ensures agrees { result ≡ agrees_at row.now place value }
{
    match place {
        Some(place) => row.len() <= place || row[place] == value,
        None => true,
    }
}

/// Whether the row has at each place the value that it has at the first place of the variable.
fn reads_one_value(scope: &[u32], row: &[u8]) -> bool
    ensures read { result ≡ list_all (agrees_first scope.now row.now) (reading scope.now row.now) }
{
    for (variable, value) in scope.iter().zip(row) {
        if !agrees_at(row, first_place(scope, *variable), *value) {
            return false;
        }
    }
    true
}

/// Whether the row reads one value for each variable of the scope, and agrees with the nogood.
pub fn is_case(scope: &[u32], nogood: &Nogood, row: &[u8]) -> bool
    ensures case { result ≡ is_case scope.now nogood.now row.now }
{
    is_case_at(scope, true, nogood, &first_places(nogood, scope), row)
}

/// The same, where it is known whether a variable may repeat, and where those of the nogood stand first.
pub fn is_case_at(
    scope: &[u32],
    may_repeat: bool,
    nogood: &Nogood,
    places: &[Option<usize>; MOST_PAIRS],
    row: &[u8],
) -> bool
    requires distinct { OnFalse may_repeat (AllPairs (λ x y. x ≢ y) scope.now) }
    requires places { AreFirstPlaces scope.now nogood.now places.now }
    ensures case { result ≡ is_case scope.now nogood.now row.now }
{
    for i in 0..nogood.len() {
        let (_, value) = nogood.pair(i);
        if !agrees_at(row, places[i as usize], value) {
            return false;
        }
    }
    !may_repeat || reads_one_value(scope, row)
}

/// Whether each pair of `some` is one of the nogood, or is read.
pub fn is_contained(some: &Nogood, nogood: &Nogood, scope: &[u32], row: &[u8]) -> bool
    ensures contained { result ≡ contained_in some.now (nogood.now ++ reading scope.now row.now) }
{
    for i in 0..some.len() {
        let (variable, value) = some.pair(i);
        if !has_pair(nogood, variable, value) && !reads(scope, row, variable, value) {
            return false;
        }
    }
    true
}
