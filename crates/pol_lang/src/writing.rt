ghost use Rattle.std.specs.Prelude.{◌≡◌, ◌<◌, ◌++◌, [], ◌∷◌, length, map, flat_map, slice_index_or, codes, decimal, All};
ghost use Rattle.pol_relation.specs.Instances.{Fits};
ghost use Rattle.pol_text.specs.Texts.{joined, spaced_texts, printed_line, Puts};
ghost use Rattle.pol_lang.specs.Spelling.{instance_lines, constraint_tokens};
ghost use Rattle.pol_lang.specs.Texts.{tuple_tokens, relation_lines, file_text};
ghost use Rattle.pol_lang.specs.Laws.{CanonicalIsReadAgain, CanonicalIsShort};

use crate::File;
use pol_base::{NoMemory, Values};
use pol_relation::{Instance, Relation};
use pol_text::{put_spaced, put_token, put_values};

/// Appends the canonical text of the file. Where memory runs out, a front of it is appended.
pub fn put_file(out: &mut Values, file: &File) -> Result<(), NoMemory>
    ensures puts { Puts result out.old out.new (file_text file.now) }
{
    put_front(out, file)?;
    put_relations(out, file)?;
    put_instances(out, file)?;
    out.append(b"end\n")
}

/// The canonical text of a file is read again as the file, and is short enough to be read.
pub fn canonical_laws()
    ensures again { CanonicalIsReadAgain }
    ensures short { CanonicalIsShort }
{}

/// Appends the lines before the first entry.
fn put_front(out: &mut Values, file: &File) -> Result<(), NoMemory>
    ensures puts { Puts result out.old out.new
        (printed_line (codes "polyanna" ∷ codes "1" ∷ [])
        ++ printed_line (codes "domain" ∷ decimal file.now.language.domain ∷ [])) }
{
    out.append(b"polyanna 1\ndomain")?;
    put_spaced(out, u64::from(file.lang().domain().size()))?;
    out.append(b"\n")
}

fn put_relations(out: &mut Values, file: &File) -> Result<(), NoMemory>
    ensures puts { Puts result out.old out.new
        (joined printed_line (flat_map relation_lines file.now.language.relations)) }
{
    let lang = file.lang();
    for i in 0..lang.len() {
        put_relation(out, lang.name(i), lang.relation(i))?;
    }
    Ok(())
}

fn put_relation(out: &mut Values, name: &[u8], relation: &Relation) -> Result<(), NoMemory>
    ensures puts { Puts result out.old out.new
        (joined printed_line (relation_lines (record { name = name.now; relation = relation.now }))) }
{
    out.append(b"relation ")?;
    out.append(name)?;
    put_spaced(out, u64::from(relation.arity()))?;
    out.append(b"\n")?;
    put_tuples(out, relation)
}

fn put_tuples(out: &mut Values, relation: &Relation) -> Result<(), NoMemory>
    ensures puts { Puts result out.old out.new (joined printed_line (map tuple_tokens relation.now.rows)) }
{
    for i in 0..relation.len() {
        put_tuple(out, relation.row(i))?;
    }
    Ok(())
}

fn put_tuple(out: &mut Values, row: &[u8]) -> Result<(), NoMemory>
    ensures puts { Puts result out.old out.new (printed_line (tuple_tokens row.now)) }
{
    out.append(b"tuple")?;
    put_values(out, row)?;
    out.append(b"\n")
}

fn put_instances(out: &mut Values, file: &File) -> Result<(), NoMemory>
    ensures puts { Puts result out.old out.new
        (joined printed_line (flat_map (instance_lines file.now.language) file.now.instances)) }
{
    for i in 0..file.instances() {
        put_instance(out, file, file.instance(i))?;
    }
    Ok(())
}

fn put_instance(out: &mut Values, file: &File, inst: &Instance) -> Result<(), NoMemory>
    requires fits { Fits file.now.language inst.now }
    ensures puts { Puts result out.old out.new
        (joined printed_line (instance_lines file.now.language inst.now)) }
{
    out.append(b"instance ")?;
    out.append(inst.name())?;
    put_variables(out, inst)?;
    out.append(b"\n")?;
    put_constraints(out, file, inst)
}

/// Appends the names of the variables, each behind a space.
fn put_variables(out: &mut Values, inst: &Instance) -> Result<(), NoMemory>
    ensures puts { Puts result out.old out.new (spaced_texts inst.now.variables) }
{
    for i in 0..inst.variables() {
        put_token(out, inst.variable(i))?;
    }
    Ok(())
}

fn put_constraints(out: &mut Values, file: &File, inst: &Instance) -> Result<(), NoMemory>
    requires fits { Fits file.now.language inst.now }
    ensures puts { Puts result out.old out.new
        (joined printed_line (map (λ c. codes "constraint" ∷ constraint_tokens file.now.language inst.now c)
        inst.now.constraints)) }
{
    let lang = file.lang();
    for c in 0..inst.constraints() {
        put_constraint(out, lang.name(inst.relation_of(c)), inst, inst.scope(c))?;
    }
    Ok(())
}

fn put_constraint(
    out: &mut Values,
    relation: &[u8],
    inst: &Instance,
    scope: &[u32],
) -> Result<(), NoMemory>
    requires below { All (λ x. x < length inst.now.variables) scope.now }
    ensures puts { Puts result out.old out.new
        (printed_line (codes "constraint" ∷ relation.now
        ∷ map (λ x. slice_index_or inst.now.variables x []) scope.now)) }
{
    out.append(b"constraint ")?;
    out.append(relation)?;
    put_scope(out, inst, scope)?;
    out.append(b"\n")
}

/// Appends the names of the variables of the scope, each behind a space.
fn put_scope(out: &mut Values, inst: &Instance, scope: &[u32]) -> Result<(), NoMemory>
    requires below { All (λ x. x < length inst.now.variables) scope.now }
    ensures puts { Puts result out.old out.new
        (spaced_texts (map (λ x. slice_index_or inst.now.variables x []) scope.now)) }
{
    for variable in scope {
        put_token(out, inst.variable(*variable))?;
    }
    Ok(())
}
