ghost use Rattle.std.specs.Prelude.{◌≡◌, ◌+◌, ◌≤◌, length, Some, None, Ok, OnOk, IfOk, IfErr};
ghost use Rattle.pol_text.specs.Lines.{lines_of, significant_lines};
ghost use Rattle.pol_lang.specs.Files.{Parsed};
ghost use Rattle.pol_lang.specs.Grammar.{parse, extra, rest_of_file};
ghost use Rattle.pol_lang.specs.Limits.{most_bytes};
ghost use Rattle.pol_lang.specs.Spelling.{IsSpelled};
ghost use Rattle.pol_text.specs.Reading.{Reads};
ghost use Rattle.pol_lang.specs.Reading.{parsed_of};

use crate::entries::{domain_line, end_line, entry_line, header_line};
use crate::{File, Rest};
use pol_text::{LineFail, Lines, ReadFail, Refusal, Word, count_lines, significant};
use std::alloc::Global;

/// The file that the text begins with, and where it ends there. What stands behind is not looked at.
/// Every other text is refused with its first refusal: `NoHeader` where there is no significant line
/// and `Ended` where the `end` line is missing, both at the number of lines plus 1.
#[tactic(auto, unfolding(crate::specs::Grammar::parse))]
pub fn read_file(alloc: Global, bytes: &[u8]) -> Result<(File, Rest), ReadFail>
    requires few { length bytes.now ≤ most_bytes }
    ensures reads { Reads parsed_of result (parse bytes.now) }
    // What is accepted is spelled so, and what is spelled so is accepted.
    ensures spelled { IfOk result (λ read. IsSpelled (significant_lines 1 bytes.now) (parsed_of read)) }
    ensures accepted { (found : Parsed) → IsSpelled (significant_lines 1 bytes.now) found
        → Reads parsed_of result (Ok found) }
    ensures place { IfOk result (λ read. read.1.place ≤ length bytes.now) }
    ensures line { IfOk result (λ read. read.1.line ≤ length bytes.now + 1) }
{
    let mut lines = significant(bytes, 1);
    let Some(header) = lines.next() else {
        return Err(ended(bytes, Word::NoHeader));
    };
    if let Err(word) = header_line(&header) {
        return Err(refused(header.number(), word));
    }
    let Some(second) = lines.next() else {
        return Err(ended(bytes, Word::Ended));
    };
    match domain_line(&second) {
        Ok(d) => rest_of_file(alloc, File::begin(alloc, d), bytes, lines),
        Err(word) => Err(refused(second.number(), word)),
    }
}

/// The entries and the `end` line, read into the file.
fn rest_of_file(
    alloc: Global,
    mut file: File,
    bytes: &[u8],
    mut lines: Lines<'_>,
) -> Result<(File, Rest), ReadFail>
    requires few { length bytes.now ≤ most_bytes }
    ensures reads { Reads parsed_of result (rest_of_file file (length (lines_of bytes.now) + 1) lines.entry) }
{
    while let Some(line) = lines.next() {
        if line.begins_with(b"end") {
            return match end_line(&line) {
                Ok(_) => Ok((
                    file,
                    Rest {
                        place: line.after(),
                        line: line.next_number(),
                    },
                )),
                Err(word) => Err(refused(line.number(), word)),
            };
        }
        match entry_line(alloc, &mut file, &line) {
            Ok(()) => {}
            Err(LineFail::Refused(word)) => return Err(refused(line.number(), word)),
            Err(LineFail::NoMemory) => return Err(ReadFail::NoMemory),
        }
    }
    Err(ended(bytes, Word::Ended))
}

fn refused(line: u32, word: Word) -> ReadFail
    ensures refused { result ≡ ReadFail.Refused (record { line = line; word = word }) }
{
    ReadFail::Refused(Refusal { line, word })
}

/// The refusal of a text that ends too early.
fn ended(bytes: &[u8], word: Word) -> ReadFail
    requires few { length bytes.now ≤ most_bytes }
    ensures refused { result ≡ ReadFail.Refused (record { line = length (lines_of bytes.now) + 1; word = word }) }
{
    refused(count_lines(bytes) + 1, word)
}

/// Refuses the text with `AfterEnd` exactly where a significant line stands from the place on, at the number
/// of the first such line. Takes no memory.
#[tactic(auto, unfolding(crate::specs::Grammar::extra))]
pub fn nothing_more(bytes: &[u8], rest: Rest) -> Result<(), Refusal>
    requires few { length bytes.now ≤ most_bytes }
    requires place { rest.place ≤ length bytes.now }
    requires line { rest.line ≤ most_bytes + 1 }
    ensures nothing { OnOk result (extra bytes.now rest.place rest.line ≡ None) }
    ensures more { IfErr result (λ refusal. extra bytes.now rest.place rest.line ≡ Some refusal.line) }
    ensures word { IfErr result (λ refusal. refusal.word ≡ Word.AfterEnd) }
{
    match significant(&bytes[rest.place..], rest.line).next() {
        Some(line) => Err(Refusal {
            line: line.number(),
            word: Word::AfterEnd,
        }),
        None => Ok(()),
    }
}
