ghost use Rattle.std.specs.Prelude.{◌≡◌, [], ◌∷◌, ◌≤◌, ◌+◌, map, option_map, OnOk, OnErr, IfOk, IsErrOf, length};
ghost use Rattle.pol_outside.specs.Faults.{Rose};
ghost use Rattle.pol_relation.specs.Instances.{Fits};
ghost use Rattle.pol_relation.specs.Weights.{weight_of, subset_weight_of, most_weight};
ghost use Rattle.pol_optable.specs.ClassLines.{all_classes};
ghost use Rattle.pol_optable.specs.ClassLines.Line.{Sought};
ghost use Rattle.pol_optable.specs.Choices.{AreLines, line_in};
ghost use Rattle.pol_classify.specs.Found.{AreFound, place_of};
ghost use Rattle.pol_lang.specs.Files.{IsFileLanguage, IsFileInstance};
ghost use Rattle.pol_cli.specs.Reports.{Subject, subjects, class_item, answer_item, IsInstanceItem, AppendsItems, AppendsItemsFront, AppendsReport, AppendsReportFront};

use pol_base::{ClassName, NoMemory, Values};
use pol_classify::{find_line, nothing_found};
use pol_lang::File;
use pol_optable::{CLASSES, Classes, Nu4, OpTable};
use pol_outside::{Sink, WriteFault};
use pol_relation::{Instance, Language};
use pol_report::{Item, send_head, send_item, send_last};
use pol_solve::{InstanceAnswer, answer};
use std::alloc::Global;

/// Why a report was not written to its end.
#[derive(Clone, Copy, Debug, PartialEq, Eq)]
pub(crate) enum Cut {
    WriteFault,
    NoMemory,
}

impl From<WriteFault> for Cut {
    ghost use Rattle.std.specs.Prelude.{◌≡◌};
    ghost use Rattle.pol_cli.specs.declared.report.Cut.TheVariants.{WriteFault as FaultOfWriting};

    ghost from_gives = { λ _ cut. cut ≡ FaultOfWriting };

    fn from(_error: WriteFault) -> Cut {
        Cut::WriteFault
    }
}

impl From<NoMemory> for Cut {
    ghost use Rattle.std.specs.Prelude.{◌≡◌};
    ghost use Rattle.pol_cli.specs.declared.report.Cut.TheVariants.{NoMemory as OutOfMemory};

    ghost from_gives = { λ _ cut. cut ≡ OutOfMemory };

    fn from(_error: NoMemory) -> Cut {
        Cut::NoMemory
    }
}

/// Writes the report of the file, each line as soon as it is known.
pub(crate) fn send_report<O: Sink>(alloc: Global, sink: &mut O, file: &File) -> Result<(), Cut>
    ensures whole { OnOk result (AppendsReport file.now (O.written sink.old) (O.written sink.new)) }
    ensures front { OnErr result (AppendsReportFront file.now (O.written sink.old) (O.written sink.new)) }
    ensures calm { OnOk result (O.faults sink.new ≡ O.faults sink.old) }
    ensures fault { IsErrOf result Cut.WriteFault → Rose (O.faults sink.old) (O.faults sink.new) }
    ensures no_memory { IsErrOf result Cut.NoMemory → O.faults sink.new ≡ O.faults sink.old }
{
    send_head(sink)?;
    send_items(alloc, sink, file)?;
    send_last(sink)?;
    Ok(())
}

/// Writes the items of the classes and of the instances, in their order.
fn send_items<O: Sink>(alloc: Global, sink: &mut O, file: &File) -> Result<(), Cut>
    ensures whole { OnOk result (AppendsItems file.now.language (subjects file.now) (O.written sink.old) (O.written sink.new)) }
    ensures front { OnErr result (AppendsItemsFront file.now.language (subjects file.now) (O.written sink.old) (O.written sink.new)) }
    ensures calm { OnOk result (O.faults sink.new ≡ O.faults sink.old) }
    ensures fault { IsErrOf result Cut.WriteFault → Rose (O.faults sink.old) (O.faults sink.new) }
    ensures no_memory { IsErrOf result Cut.NoMemory → O.faults sink.new ≡ O.faults sink.old }
{
    let classes = send_classes(alloc, sink, file)?;
    send_instances(alloc, sink, file, &classes)
}

/// Writes the items of the classes, in their order, and answers their lines.
fn send_classes<O: Sink>(alloc: Global, sink: &mut O, file: &File) -> Result<Classes, Cut>
    ensures lines { IfOk result (AreLines file.now.language) }
    ensures whole { OnOk result (AppendsItems file.now.language (map Subject.OfClass all_classes) (O.written sink.old) (O.written sink.new)) }
    ensures front { OnErr result (AppendsItemsFront file.now.language (map Subject.OfClass all_classes) (O.written sink.old) (O.written sink.new)) }
    ensures calm { OnOk result (O.faults sink.new ≡ O.faults sink.old) }
    ensures fault { IsErrOf result Cut.WriteFault → Rose (O.faults sink.old) (O.faults sink.new) }
    ensures no_memory { IsErrOf result Cut.NoMemory → O.faults sink.new ≡ O.faults sink.old }
{
    let lang = file.lang();
    let mut classes = nothing_found();
    for class in CLASSES {
        send_class(alloc, sink, lang, class, &mut classes)?;
    }
    Ok(classes)
}

/// Finds the line of the class, given those of the classes before it, and writes its item.
fn send_class<O: Sink>(
    alloc: Global,
    sink: &mut O,
    lang: &Language,
    class: ClassName,
    classes: &mut Classes,
) -> Result<(), Cut>
    requires language { IsFileLanguage lang.now }
    requires found { AreFound lang.now (place_of class) classes.old }
    ensures found { OnOk result (AreFound lang.now (place_of class + 1) classes.new) }
    ensures whole { OnOk result (AppendsItems lang.now (Subject.OfClass class ∷ []) (O.written sink.old) (O.written sink.new)) }
    ensures front { OnErr result (AppendsItemsFront lang.now (Subject.OfClass class ∷ []) (O.written sink.old) (O.written sink.new)) }
    ensures calm { OnOk result (O.faults sink.new ≡ O.faults sink.old) }
    ensures fault { IsErrOf result Cut.WriteFault → Rose (O.faults sink.old) (O.faults sink.new) }
    ensures no_memory { IsErrOf result Cut.NoMemory → O.faults sink.new ≡ O.faults sink.old }
{
    find_line(alloc, lang, class, classes)?;
    let item = class_item(alloc, class, classes)?;
    send_item(sink, &item)?;
    Ok(())
}

/// The item of the class: its table, or that there is none or none was sought.
fn class_item(alloc: Global, class: ClassName, classes: &Classes) -> Result<Item, NoMemory>
    ensures item { IfOk result (λ told. told ≡ class_item class (line_in classes.now class)) }
{
    match class {
        ClassName::Constant => table_item(alloc, class, &classes.constant),
        ClassName::Semilattice => table_item(alloc, class, &classes.semilattice),
        ClassName::SetFunction => match &classes.setfn {
            Some(g) => cells_item(alloc, class, g.cells()),
            None => Ok(Item::ClassNone { kind: class }),
        },
        ClassName::Majority => table_item(alloc, class, &classes.majority),
        ClassName::Nu4 => match &classes.nu4 {
            Nu4::Beyond => Ok(Item::ClassBeyond),
            Nu4::Absent => Ok(Item::ClassNone { kind: class }),
            Nu4::Found(table) => cells_item(alloc, class, table.cells()),
        },
        ClassName::Affine => table_item(alloc, class, &classes.affine),
        ClassName::Maltsev => table_item(alloc, class, &classes.maltsev),
    }
}

/// The item of a class that has an operation table or none.
fn table_item<const K: usize>(
    alloc: Global,
    class: ClassName,
    table: &Option<OpTable<K>>,
) -> Result<Item, NoMemory>
    ensures item { IfOk result
        (λ told. told ≡ class_item class (Sought (option_map (λ f. f.cells) table.now))) }
{
    match table {
        Some(table) => cells_item(alloc, class, table.cells()),
        None => Ok(Item::ClassNone { kind: class }),
    }
}

/// The item of a class with the cells of its table.
fn cells_item(alloc: Global, class: ClassName, cells: &[u8]) -> Result<Item, NoMemory>
    ensures item { IfOk result (λ told. told ≡ class_item class (Sought (Some cells.now))) }
{
    Ok(Item::ClassTable {
        kind: class,
        cells: Values::from_slice(alloc, cells)?,
    })
}

/// Writes the items of the instances, in their order.
fn send_instances<O: Sink>(
    alloc: Global,
    sink: &mut O,
    file: &File,
    classes: &Classes,
) -> Result<(), Cut>
    requires lines { AreLines file.now.language classes.now }
    ensures whole { OnOk result (AppendsItems file.now.language (map Subject.OfInstance file.now.instances) (O.written sink.old) (O.written sink.new)) }
    ensures front { OnErr result (AppendsItemsFront file.now.language (map Subject.OfInstance file.now.instances) (O.written sink.old) (O.written sink.new)) }
    ensures calm { OnOk result (O.faults sink.new ≡ O.faults sink.old) }
    ensures fault { IsErrOf result Cut.WriteFault → Rose (O.faults sink.old) (O.faults sink.new) }
    ensures no_memory { IsErrOf result Cut.NoMemory → O.faults sink.new ≡ O.faults sink.old }
{
    for i in 0..file.instances() {
        send_instance(alloc, sink, file.lang(), file.instance(i), classes)?;
    }
    Ok(())
}

/// Answers an instance, and writes its item.
fn send_instance<O: Sink>(
    alloc: Global,
    sink: &mut O,
    lang: &Language,
    inst: &Instance,
    classes: &Classes,
) -> Result<(), Cut>
    requires language { IsFileLanguage lang.now }
    requires instance { IsFileInstance lang.now inst.now }
    requires lines { AreLines lang.now classes.now }
    ensures whole { OnOk result (AppendsItems lang.now (Subject.OfInstance inst.now ∷ []) (O.written sink.old) (O.written sink.new)) }
    ensures front { OnErr result (AppendsItemsFront lang.now (Subject.OfInstance inst.now ∷ []) (O.written sink.old) (O.written sink.new)) }
    ensures calm { OnOk result (O.faults sink.new ≡ O.faults sink.old) }
    ensures fault { IsErrOf result Cut.WriteFault → Rose (O.faults sink.old) (O.faults sink.new) }
    ensures no_memory { IsErrOf result Cut.NoMemory → O.faults sink.new ≡ O.faults sink.old }
{
    let item = instance_item(alloc, lang, inst, classes)?;
    send_item(sink, &item)?;
    Ok(())
}

/// The item of an instance: its answer by the first class of which a table was found.
fn instance_item(
    alloc: Global,
    lang: &Language,
    inst: &Instance,
    classes: &Classes,
) -> Result<Item, NoMemory>
    requires fits { Fits lang.now inst.now }
    requires some_variables { 1 ≤ length inst.now.variables }
    requires few_variables { length inst.now.variables ≤ 40 }
    requires few_constraints { length inst.now.constraints ≤ 256 }
    requires lines { AreLines lang.now classes.now }
    ensures item { IfOk result (IsInstanceItem lang.now inst.now) }
{
    let given = answer(alloc, lang, inst, classes)?;
    let name = Values::from_slice(alloc, inst.name())?;
    Ok(answer_item(name, classes.first(), given))
}

/// The item that tells the answer, and of which class its method is.
fn answer_item(name: Values, chosen: Option<ClassName>, given: InstanceAnswer) -> Item
    ensures item { result ≡ answer_item name chosen given }
{
    match chosen {
        Some(kind) => match given {
            InstanceAnswer::Yes(values) => Item::Yes { name, kind, values },
            InstanceAnswer::NoLog(log) => Item::NoLog { name, kind, log },
            InstanceAnswer::NoSum(combination) => Item::NoSum { name, combination },
            InstanceAnswer::YesSizes(values, sizes) => Item::YesSizes {
                name,
                values,
                sizes,
            },
            InstanceAnswer::NoSizes(sizes) => Item::NoSizes { name, sizes },
            InstanceAnswer::Undecided => Item::Undecided { name },
        },
        None => Item::Undecided { name },
    }
}
