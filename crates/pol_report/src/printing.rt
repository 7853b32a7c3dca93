ghost use Rattle.std.specs.Prelude.{◌≡◌, ◌++◌, [], ◌∷◌, map, codes, decimal, OnErr, ◌≤◌, OnOk};
ghost use Rattle.pol_outside.specs.Faults.{Rose};
ghost use Rattle.pol_base.specs.Names.{class_word};
ghost use Rattle.pol_base.specs.declared.class_name.ClassName.TheVariants.{Affine, Maltsev};
ghost use Rattle.pol_text.specs.Texts.{PutsIn, spaced_texts};
ghost use Rattle.pol_report.specs.Texts.{head_line, last_line, class_item, yes_item, no_item, no_sum_item, yes_sizes_item, no_sizes_item, sizes_line, undecided_item, instance_line, item_text};
ghost use Rattle.pol_report.specs.Printable.{IsPrintable};

use crate::Item;
use crate::part_lines::put_parts;
use crate::step_lines::put_steps;
use pol_base::ClassName;
use pol_modp::Combination;
use pol_nogood::Log;
use pol_text::{Text, put_numbers, put_spaced, put_token, put_values};

/// Appends the line before the items. Where the text takes no more, a front of it is appended.
pub fn put_head<T: Text>(out: &mut T) -> Result<(), T::Fault>
    ensures puts { PutsIn result (T.bytes out.old) (T.bytes out.new) head_line }
    ensures place { T.place out.new ≡ T.place out.old }
    ensures sent { T.sent out.old ≤ T.sent out.new }
    ensures calm { OnOk result (T.faults out.new ≡ T.faults out.old) }
    ensures fault { OnErr result (Rose (T.faults out.old) (T.faults out.new)) }
{
    out.append(b"polyanna-report 1\n")
}

/// Appends the lines of the item, which has to be `printable`. Where the text takes no more, a front of
/// them is appended.
pub fn put_item<T: Text>(out: &mut T, item: &Item) -> Result<(), T::Fault>
    requires printable { IsPrintable item.now }
    ensures puts { PutsIn result (T.bytes out.old) (T.bytes out.new) (item_text item.now) }
    ensures place { T.place out.new ≡ T.place out.old }
    ensures sent { T.sent out.old ≤ T.sent out.new }
    ensures calm { OnOk result (T.faults out.new ≡ T.faults out.old) }
    ensures fault { OnErr result (Rose (T.faults out.old) (T.faults out.new)) }
{
    match item {
        Item::ClassTable { kind, cells } => put_cells(out, *kind, cells.as_slice()),
        Item::ClassNone { kind } => put_word(out, *kind, b"none"),
        Item::ClassBeyond => put_word(out, ClassName::Nu4, b"beyond"),
        Item::Yes { name, kind, values } => {
            put_yes(out, name.as_slice(), *kind, values.as_slice())
        }
        Item::YesSizes {
            name,
            values,
            sizes,
        } => put_yes_sizes(out, name.as_slice(), values.as_slice(), sizes.as_slice()),
        Item::NoLog { name, kind, log } => put_no(out, name.as_slice(), *kind, log),
        Item::NoSum { name, combination } => put_no_sum(out, name.as_slice(), combination),
        Item::NoSizes { name, sizes } => put_no_sizes(out, name.as_slice(), sizes.as_slice()),
        Item::Undecided { name } => put_undecided(out, name.as_slice()),
    }
}

/// Appends the line behind the items. Where the text takes no more, a front of it is appended.
pub fn put_last<T: Text>(out: &mut T) -> Result<(), T::Fault>
    ensures puts { PutsIn result (T.bytes out.old) (T.bytes out.new) last_line }
    ensures place { T.place out.new ≡ T.place out.old }
    ensures sent { T.sent out.old ≤ T.sent out.new }
    ensures calm { OnOk result (T.faults out.new ≡ T.faults out.old) }
    ensures fault { OnErr result (Rose (T.faults out.old) (T.faults out.new)) }
{
    out.append(b"end\n")
}

/// Appends the line of a class with the cells of its table.
fn put_cells<T: Text>(out: &mut T, class: ClassName, cells: &[u8]) -> Result<(), T::Fault>
    ensures puts { PutsIn result (T.bytes out.old) (T.bytes out.new) (class_item class (map decimal cells.now)) }
    ensures place { T.place out.new ≡ T.place out.old }
    ensures sent { T.sent out.old ≤ T.sent out.new }
    ensures calm { OnOk result (T.faults out.new ≡ T.faults out.old) }
    ensures fault { OnErr result (Rose (T.faults out.old) (T.faults out.new)) }
{
    put_class(out, class)?;
    put_values(out, cells)?;
    out.append(b"\n")
}

/// Appends the line of a class with a word in place of a table.
fn put_word<T: Text>(out: &mut T, class: ClassName, word: &[u8]) -> Result<(), T::Fault>
    ensures puts { PutsIn result (T.bytes out.old) (T.bytes out.new) (class_item class (word.now ∷ [])) }
    ensures place { T.place out.new ≡ T.place out.old }
    ensures sent { T.sent out.old ≤ T.sent out.new }
    ensures calm { OnOk result (T.faults out.new ≡ T.faults out.old) }
    ensures fault { OnErr result (Rose (T.faults out.old) (T.faults out.new)) }
{
    put_class(out, class)?;
    put_token(out, word)?;
    out.append(b"\n")
}

/// Appends `class` and the word of the class.
fn put_class<T: Text>(out: &mut T, class: ClassName) -> Result<(), T::Fault>
    ensures puts { PutsIn result (T.bytes out.old) (T.bytes out.new) (codes "class" ++ spaced_texts (class_word class ∷ [])) }
    ensures place { T.place out.new ≡ T.place out.old }
    ensures sent { T.sent out.old ≤ T.sent out.new }
    ensures calm { OnOk result (T.faults out.new ≡ T.faults out.old) }
    ensures fault { OnErr result (Rose (T.faults out.old) (T.faults out.new)) }
{
    out.append(b"class")?;
    put_token(out, class.word())
}

/// Appends the line of an instance that is not answered.
fn put_undecided<T: Text>(out: &mut T, name: &[u8]) -> Result<(), T::Fault>
    ensures puts { PutsIn result (T.bytes out.old) (T.bytes out.new) (undecided_item name.now) }
    ensures place { T.place out.new ≡ T.place out.old }
    ensures sent { T.sent out.old ≤ T.sent out.new }
    ensures calm { OnOk result (T.faults out.new ≡ T.faults out.old) }
    ensures fault { OnErr result (Rose (T.faults out.old) (T.faults out.new)) }
{
    put_begun(out, name, b"undecided")?;
    out.append(b"\n")
}

/// Appends `instance`, the name, and what the item is.
fn put_begun<T: Text>(out: &mut T, name: &[u8], word: &[u8]) -> Result<(), T::Fault>
    ensures puts { PutsIn result (T.bytes out.old) (T.bytes out.new) (codes "instance" ++ spaced_texts (name.now ∷ word.now ∷ [])) }
    ensures place { T.place out.new ≡ T.place out.old }
    ensures sent { T.sent out.old ≤ T.sent out.new }
    ensures calm { OnOk result (T.faults out.new ≡ T.faults out.old) }
    ensures fault { OnErr result (Rose (T.faults out.old) (T.faults out.new)) }
{
    out.append(b"instance")?;
    put_token(out, name)?;
    put_token(out, word)
}

/// Appends `instance`, the name, the answer, and the class that gives it.
fn put_answered<T: Text>(
    out: &mut T,
    name: &[u8],
    answer: &[u8],
    class: ClassName,
) -> Result<(), T::Fault>
    ensures puts { PutsIn result (T.bytes out.old) (T.bytes out.new)
        (codes "instance" ++ spaced_texts (name.now ∷ answer.now ∷ class_word class ∷ [])) }
    ensures place { T.place out.new ≡ T.place out.old }
    ensures sent { T.sent out.old ≤ T.sent out.new }
    ensures calm { OnOk result (T.faults out.new ≡ T.faults out.old) }
    ensures fault { OnErr result (Rose (T.faults out.old) (T.faults out.new)) }
{
    put_begun(out, name, answer)?;
    put_token(out, class.word())
}

/// Appends the line of a solution.
fn put_yes<T: Text>(
    out: &mut T,
    name: &[u8],
    class: ClassName,
    values: &[u8],
) -> Result<(), T::Fault>
    ensures puts { PutsIn result (T.bytes out.old) (T.bytes out.new) (yes_item name.now class values.now) }
    ensures place { T.place out.new ≡ T.place out.old }
    ensures sent { T.sent out.old ≤ T.sent out.new }
    ensures calm { OnOk result (T.faults out.new ≡ T.faults out.old) }
    ensures fault { OnErr result (Rose (T.faults out.old) (T.faults out.new)) }
{
    put_answered(out, name, b"yes", class)?;
    put_values(out, values)?;
    out.append(b"\n")
}

/// Appends the line of a No, and the steps of the log behind it.
fn put_no<T: Text>(out: &mut T, name: &[u8], class: ClassName, log: &Log) -> Result<(), T::Fault>
    ensures puts { PutsIn result (T.bytes out.old) (T.bytes out.new) (no_item name.now class log.now) }
    ensures place { T.place out.new ≡ T.place out.old }
    ensures sent { T.sent out.old ≤ T.sent out.new }
    ensures calm { OnOk result (T.faults out.new ≡ T.faults out.old) }
    ensures fault { OnErr result (Rose (T.faults out.old) (T.faults out.new)) }
{
    put_no_line(out, name, class, log.len())?;
    put_steps(out, log)
}

/// Appends the line of a No, with the number of the steps of its log.
fn put_no_line<T: Text>(
    out: &mut T,
    name: &[u8],
    class: ClassName,
    steps: u32,
) -> Result<(), T::Fault>
    ensures puts { PutsIn result (T.bytes out.old) (T.bytes out.new)
        (instance_line name.now (codes "no" ∷ class_word class ∷ decimal steps ∷ [])) }
    ensures place { T.place out.new ≡ T.place out.old }
    ensures sent { T.sent out.old ≤ T.sent out.new }
    ensures calm { OnOk result (T.faults out.new ≡ T.faults out.old) }
    ensures fault { OnErr result (Rose (T.faults out.old) (T.faults out.new)) }
{
    put_counted(out, name, class, steps)?;
    out.append(b"\n")
}

/// Appends the line of a No by a combination, and the parts behind it.
fn put_no_sum<T: Text>(out: &mut T, name: &[u8], combination: &Combination) -> Result<(), T::Fault>
    ensures puts { PutsIn result (T.bytes out.old) (T.bytes out.new) (no_sum_item name.now combination.now) }
    ensures place { T.place out.new ≡ T.place out.old }
    ensures sent { T.sent out.old ≤ T.sent out.new }
    ensures calm { OnOk result (T.faults out.new ≡ T.faults out.old) }
    ensures fault { OnErr result (Rose (T.faults out.old) (T.faults out.new)) }
{
    put_no_sum_line(out, name, combination.len(), combination.labels())?;
    put_parts(out, combination)
}

/// Appends the line of a No, with the number of the parts of its combination and the labels.
fn put_no_sum_line<T: Text>(
    out: &mut T,
    name: &[u8],
    parts: u32,
    labels: &[u8],
) -> Result<(), T::Fault>
    ensures puts { PutsIn result (T.bytes out.old) (T.bytes out.new)
        (instance_line name.now (codes "no" ∷ class_word Affine ∷ decimal parts ∷ map decimal labels.now)) }
    ensures place { T.place out.new ≡ T.place out.old }
    ensures sent { T.sent out.old ≤ T.sent out.new }
    ensures calm { OnOk result (T.faults out.new ≡ T.faults out.old) }
    ensures fault { OnErr result (Rose (T.faults out.old) (T.faults out.new)) }
{
    put_counted(out, name, ClassName::Affine, parts)?;
    put_values(out, labels)?;
    out.append(b"\n")
}

/// Appends `instance`, the name, `no`, the class, and how many lines show it.
fn put_counted<T: Text>(
    out: &mut T,
    name: &[u8],
    class: ClassName,
    lines: u32,
) -> Result<(), T::Fault>
    ensures puts { PutsIn result (T.bytes out.old) (T.bytes out.new)
        (codes "instance" ++ spaced_texts (name.now ∷ codes "no" ∷ class_word class ∷ decimal lines ∷ [])) }
    ensures place { T.place out.new ≡ T.place out.old }
    ensures sent { T.sent out.old ≤ T.sent out.new }
    ensures calm { OnOk result (T.faults out.new ≡ T.faults out.old) }
    ensures fault { OnErr result (Rose (T.faults out.old) (T.faults out.new)) }
{
    put_answered(out, name, b"no", class)?;
    put_spaced(out, u64::from(lines))
}

/// Appends the line of a solution of the class `maltsev`, and the line of the sizes behind it.
fn put_yes_sizes<T: Text>(
    out: &mut T,
    name: &[u8],
    values: &[u8],
    sizes: &[u32],
) -> Result<(), T::Fault>
    ensures puts { PutsIn result (T.bytes out.old) (T.bytes out.new) (yes_sizes_item name.now values.now sizes.now) }
    ensures place { T.place out.new ≡ T.place out.old }
    ensures sent { T.sent out.old ≤ T.sent out.new }
    ensures calm { OnOk result (T.faults out.new ≡ T.faults out.old) }
    ensures fault { OnErr result (Rose (T.faults out.old) (T.faults out.new)) }
{
    put_yes(out, name, ClassName::Maltsev, values)?;
    put_sizes(out, sizes)
}

/// Appends the line of a No of the class `maltsev`, and the line of the sizes behind it.
fn put_no_sizes<T: Text>(out: &mut T, name: &[u8], sizes: &[u32]) -> Result<(), T::Fault>
    ensures puts { PutsIn result (T.bytes out.old) (T.bytes out.new) (no_sizes_item name.now sizes.now) }
    ensures place { T.place out.new ≡ T.place out.old }
    ensures sent { T.sent out.old ≤ T.sent out.new }
    ensures calm { OnOk result (T.faults out.new ≡ T.faults out.old) }
    ensures fault { OnErr result (Rose (T.faults out.old) (T.faults out.new)) }
{
    put_no_maltsev(out, name)?;
    put_sizes(out, sizes)
}

/// Appends the line of a No of the class `maltsev`.
fn put_no_maltsev<T: Text>(out: &mut T, name: &[u8]) -> Result<(), T::Fault>
    ensures puts { PutsIn result (T.bytes out.old) (T.bytes out.new) (instance_line name.now (codes "no" ∷ class_word Maltsev ∷ [])) }
    ensures place { T.place out.new ≡ T.place out.old }
    ensures sent { T.sent out.old ≤ T.sent out.new }
    ensures calm { OnOk result (T.faults out.new ≡ T.faults out.old) }
    ensures fault { OnErr result (Rose (T.faults out.old) (T.faults out.new)) }
{
    put_answered(out, name, b"no", ClassName::Maltsev)?;
    out.append(b"\n")
}

/// Appends the line of the sizes.
fn put_sizes<T: Text>(out: &mut T, sizes: &[u32]) -> Result<(), T::Fault>
    ensures puts { PutsIn result (T.bytes out.old) (T.bytes out.new) (sizes_line sizes.now) }
    ensures place { T.place out.new ≡ T.place out.old }
    ensures sent { T.sent out.old ≤ T.sent out.new }
    ensures calm { OnOk result (T.faults out.new ≡ T.faults out.old) }
    ensures fault { OnErr result (Rose (T.faults out.old) (T.faults out.new)) }
{
    out.append(b"sizes")?;
    put_numbers(out, sizes)?;
    out.append(b"\n")
}
