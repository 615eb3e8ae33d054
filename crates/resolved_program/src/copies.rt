//! Copies of statements, so that code can own what it is made of. An `Err` is want of memory here.

ghost use Rattle.std.specs.Prelude.{◌≡◌, Some, map, option_map, IfOk};
ghost use Rattle.array_meaning.specs.Statements.{Arms, Block, Forall, Loop as LoopMeaning, Transform, Where};
ghost use Rattle.array_meaning.specs.Terms.{SectionSubscripts};
ghost use Rattle.resolved_program.specs.Resolved.{arms_of, block_of, control, element_assignment, item, loop_of, mark, section_assignment, statement, subscripts_of, term, terms_of, transformation, whole_array, with_arm, with_subscript};

use crate::statements::{
    Action, Arm, Control, ElementAssignment, Item, Loop, Nest, SectionAssignment, Statement,
    Transformation, WholeArray,
};
use crate::terms::{SectionSubscript, Term};
use std::alloc::{AllocError, Global};

/// The statements of a block, in order.
pub fn copied(alloc: Global, body: &Vec<Statement>) -> Result<Vec<Statement>, AllocError>
    ensures { IfOk result (λ r. block_of r.items ≡ block_of body.now.items) }
{
    copied_block(alloc, body)
}

/// A nest: the mark of a loop by it is the same.
pub fn copied_nest(alloc: Global, nest: &Nest) -> Result<Nest, AllocError>
    ensures { IfOk result (λ r. (l : LoopMeaning) → (body : Block) → mark (Some r) l body ≡ mark (Some nest.now) l body) }
{
    let new = copied_places(alloc, &nest.new)?;
    let reduction = copied_places(alloc, &nest.reduction)?;
    Ok(Nest {
        line: nest.line,
        inner_loops: nest.inner_loops,
        new,
        reduction,
    })
}

/// The index of a DO and its values.
pub fn copied_loop(alloc: Global, l: &Loop) -> Result<Loop, AllocError>
    ensures { IfOk result (λ r. loop_of r ≡ loop_of l.now) }
{
    let control = copied_control(alloc, &l.control)?;
    Ok(Loop {
        index: l.index,
        control,
    })
}

/// The values of an index.
fn copied_control(alloc: Global, c: &Control) -> Result<Control, AllocError>
    ensures { IfOk result (λ r. control r ≡ control c.now) }
{
    let first = copied_term(alloc, &c.first)?;
    let last = copied_term(alloc, &c.last)?;
    let step = copied_term(alloc, &c.step)?;
    Ok(Control { first, last, step })
}

/// Places of names.
fn copied_places(alloc: Global, places: &[usize]) -> Result<Vec<usize>, AllocError>
    ensures { IfOk result (λ v. v.items ≡ places.now) }
{
    let mut v = Vec::new(alloc);
    v.extend_from_slice(places)?;
    Ok(v)
}

/// The bytes of a character constant.
fn copied_text(alloc: Global, bytes: &[u8]) -> Result<Vec<u8>, AllocError>
    ensures { IfOk result (λ v. v.items ≡ bytes.now) }
{
    let mut v = Vec::new(alloc);
    v.extend_from_slice(bytes)?;
    Ok(v)
}

/// An expression.
#[cycle(copied_term)]
fn copied_term(alloc: Global, t: &Term) -> Result<Term, AllocError>
    ensures { IfOk result (λ r. term r ≡ term t.now) }
{
    match t {
        Term::Number(n) => Ok(Term::Number(*n)),
        Term::Scalar(k) => Ok(Term::Scalar(*k)),
        Term::Index(k) => Ok(Term::Index(*k)),
        Term::Element(a, subscripts) => {
            let subscripts = copied_terms(alloc, subscripts)?;
            Ok(Term::Element(*a, subscripts))
        }
        Term::Section(a, subscripts) => {
            let subscripts = copied_subscripts(alloc, subscripts)?;
            Ok(Term::Section(*a, subscripts))
        }
        Term::Apply(op, operands) => {
            let operands = copied_terms(alloc, operands)?;
            Ok(Term::Apply(*op, operands))
        }
        Term::Reduce(op, t) => {
            let t = copied_term(alloc, t)?;
            Ok(Term::Reduce(*op, Box::new(alloc, t)?))
        }
    }
}

/// Expressions, in order.
#[cycle(copied_term)]
fn copied_terms(alloc: Global, terms: &[Term]) -> Result<Vec<Term>, AllocError>
    ensures { IfOk result (λ ts. terms_of ts.items ≡ terms_of terms.now) }
{
    let mut made = Vec::new(alloc);
    for t in terms {
        let one = copied_term(alloc, t)?;
        made.push(one)?;
    }
    Ok(made)
}

/// The subscripts of a section, in order.
#[cycle(copied_term)]
fn copied_subscripts(
    alloc: Global,
    subscripts: &[SectionSubscript],
) -> Result<Vec<SectionSubscript>, AllocError>
    ensures { IfOk result (λ ds. subscripts_of ds.items ≡ subscripts_of subscripts.now) }
{
    let mut made = Vec::new(alloc);
    for d in subscripts {
        let one = copied_subscript(alloc, d)?;
        made.push(one)?;
    }
    Ok(made)
}

/// A subscript of a section.
#[cycle(copied_term)]
fn copied_subscript(alloc: Global, d: &SectionSubscript) -> Result<SectionSubscript, AllocError>
    ensures { IfOk result (λ r. (rest : SectionSubscripts) → with_subscript r rest ≡ with_subscript d.now rest) }
{
    match d {
        SectionSubscript::Subscript(t) => {
            let t = copied_term(alloc, t)?;
            Ok(SectionSubscript::Subscript(t))
        }
        SectionSubscript::Triplet(first, last, step) => {
            let first = copied_term(alloc, first)?;
            let last = copied_term(alloc, last)?;
            let step = copied_term(alloc, step)?;
            Ok(SectionSubscript::Triplet(first, last, step))
        }
    }
}

/// A mask, if there is one.
fn copied_mask(alloc: Global, mask: &Option<Term>) -> Result<Option<Term>, AllocError>
    ensures { IfOk result (λ r. option_map term r ≡ option_map term mask.now) }
{
    match mask {
        None => Ok(None),
        Some(t) => {
            let t = copied_term(alloc, t)?;
            Ok(Some(t))
        }
    }
}

/// The indices of a FORALL, in order.
fn copied_controls(alloc: Global, controls: &[Control]) -> Result<Vec<Control>, AllocError>
    ensures { IfOk result (λ v. map control v.items ≡ map control controls.now) }
{
    let mut made = Vec::new(alloc);
    for c in controls {
        let one = copied_control(alloc, c)?;
        made.push(one)?;
    }
    Ok(made)
}

/// An assignment of a WHERE.
fn section_assignment(alloc: Global, a: &SectionAssignment) -> Result<SectionAssignment, AllocError>
    ensures { IfOk result (λ r. section_assignment r ≡ section_assignment a.now) }
{
    let subscripts = copied_subscripts(alloc, &a.subscripts)?;
    let right = copied_term(alloc, &a.right)?;
    Ok(SectionAssignment {
        line: a.line,
        array: a.array,
        subscripts,
        right,
    })
}

/// The assignments of a WHERE, in order.
fn section_assignments(
    alloc: Global,
    body: &[SectionAssignment],
) -> Result<Vec<SectionAssignment>, AllocError>
    ensures { IfOk result (λ v. map section_assignment v.items ≡ map section_assignment body.now) }
{
    let mut made = Vec::new(alloc);
    for a in body {
        let one = section_assignment(alloc, a)?;
        made.push(one)?;
    }
    Ok(made)
}

/// An assignment of a FORALL.
fn element_assignment(alloc: Global, a: &ElementAssignment) -> Result<ElementAssignment, AllocError>
    ensures { IfOk result (λ r. element_assignment r ≡ element_assignment a.now) }
{
    let subscripts = copied_terms(alloc, &a.subscripts)?;
    let right = copied_term(alloc, &a.right)?;
    Ok(ElementAssignment {
        line: a.line,
        array: a.array,
        subscripts,
        right,
    })
}

/// The assignments of a FORALL, in order.
fn element_assignments(
    alloc: Global,
    body: &[ElementAssignment],
) -> Result<Vec<ElementAssignment>, AllocError>
    ensures { IfOk result (λ v. map element_assignment v.items ≡ map element_assignment body.now) }
{
    let mut made = Vec::new(alloc);
    for a in body {
        let one = element_assignment(alloc, a)?;
        made.push(one)?;
    }
    Ok(made)
}

/// An item of a PRINT.
fn copied_item(alloc: Global, i: &Item) -> Result<Item, AllocError>
    ensures { IfOk result (λ r. item r ≡ item i.now) }
{
    match i {
        Item::Text(bytes) => {
            let bytes = copied_text(alloc, bytes)?;
            Ok(Item::Text(bytes))
        }
        Item::Value(t) => {
            let t = copied_term(alloc, t)?;
            Ok(Item::Value(t))
        }
        Item::Elements(a, subscripts) => {
            let subscripts = copied_subscripts(alloc, subscripts)?;
            Ok(Item::Elements(*a, subscripts))
        }
    }
}

/// The items of a PRINT, in order.
fn copied_items(alloc: Global, items: &[Item]) -> Result<Vec<Item>, AllocError>
    ensures { IfOk result (λ v. map item v.items ≡ map item items.now) }
{
    let mut made = Vec::new(alloc);
    for i in items {
        let one = copied_item(alloc, i)?;
        made.push(one)?;
    }
    Ok(made)
}

/// The nest of a loop, if it is the outermost of one.
fn nest_if_any(alloc: Global, nest: &Option<Nest>) -> Result<Option<Nest>, AllocError>
    ensures { IfOk result (λ r. (l : LoopMeaning) → (body : Block) → mark r l body ≡ mark nest.now l body) }
{
    match nest {
        None => Ok(None),
        Some(nest) => {
            let nest = copied_nest(alloc, nest)?;
            Ok(Some(nest))
        }
    }
}

/// Statements, in order.
#[cycle(copied_block)]
fn copied_block(alloc: Global, statements: &[Statement]) -> Result<Vec<Statement>, AllocError>
    ensures { IfOk result (λ r. block_of r.items ≡ block_of statements.now) }
{
    let mut made = Vec::new(alloc);
    for s in statements {
        let what = copied_action(alloc, &s.what)?;
        made.push(Statement { line: s.line, what })?;
    }
    Ok(made)
}

/// What a statement does.
#[cycle(copied_block)]
fn copied_action(alloc: Global, s: &Action) -> Result<Action, AllocError>
    ensures { IfOk result (λ r. statement r ≡ statement s.now) }
{
    match s {
        Action::AssignScalar(k, right) => Ok(Action::AssignScalar(*k, copied_term(alloc, right)?)),
        Action::AssignElement(a, subscripts, right) => Ok(Action::AssignElement(
            *a,
            copied_terms(alloc, subscripts)?,
            copied_term(alloc, right)?,
        )),
        Action::AssignSection(a, subscripts, right) => Ok(Action::AssignSection(
            *a,
            copied_subscripts(alloc, subscripts)?,
            copied_term(alloc, right)?,
        )),
        Action::Transform(target, source, how) => transform(alloc, target, source, how),
        Action::If(arms, other) => Ok(Action::If(
            copied_arms(alloc, arms)?,
            copied_block(alloc, other)?,
        )),
        Action::Do(nest, l, body) => Ok(Action::Do(
            nest_if_any(alloc, nest)?,
            copied_loop(alloc, l)?,
            copied_block(alloc, body)?,
        )),
        Action::Where(mask, body, others) => where_construct(alloc, mask, body, others),
        Action::Forall(controls, mask, body) => forall_construct(alloc, controls, mask, body),
        Action::Print(items) => Ok(Action::Print(copied_items(alloc, items)?)),
        Action::Stop => Ok(Action::Stop),
        Action::Exit => Ok(Action::Exit),
        Action::Cycle => Ok(Action::Cycle),
        Action::Continue => Ok(Action::Continue),
        Action::Redistribute => Ok(Action::Redistribute),
    }
}

/// A whole array with its dimensions.
fn copied_whole(alloc: Global, w: &WholeArray) -> Result<WholeArray, AllocError>
    ensures { IfOk result (λ r. whole_array r ≡ whole_array w.now) }
{
    let dims = w.dims.copy(alloc)?;
    Ok(WholeArray {
        array: w.array,
        dims,
    })
}

/// How a whole array is made of another.
fn copied_transformation(alloc: Global, how: &Transformation) -> Result<Transformation, AllocError>
    ensures { IfOk result (λ r. transformation r ≡ transformation how.now) }
{
    match how {
        Transformation::CircularShift(by) => {
            let by = copied_term(alloc, by)?;
            Ok(Transformation::CircularShift(by))
        }
        Transformation::Transposition => Ok(Transformation::Transposition),
        Transformation::PrefixSum => Ok(Transformation::PrefixSum),
    }
}

/// A transformation of a whole array.
fn transform(
    alloc: Global,
    target: &WholeArray,
    source: &WholeArray,
    how: &Transformation,
) -> Result<Action, AllocError>
    ensures { IfOk result (λ r. statement r ≡ Transform (whole_array target.now) (whole_array source.now) (transformation how.now)) }
{
    let target = copied_whole(alloc, target)?;
    let source = copied_whole(alloc, source)?;
    let how = copied_transformation(alloc, how)?;
    Ok(Action::Transform(target, source, how))
}

/// A WHERE.
fn where_construct(
    alloc: Global,
    mask: &Term,
    body: &[SectionAssignment],
    others: &[SectionAssignment],
) -> Result<Action, AllocError>
    ensures { IfOk result (λ r. statement r ≡ Where (term mask.now) (map section_assignment body.now) (map section_assignment others.now)) }
{
    let mask = copied_term(alloc, mask)?;
    let body = section_assignments(alloc, body)?;
    let others = section_assignments(alloc, others)?;
    Ok(Action::Where(mask, body, others))
}

/// A FORALL.
fn forall_construct(
    alloc: Global,
    controls: &[Control],
    mask: &Option<Term>,
    body: &[ElementAssignment],
) -> Result<Action, AllocError>
    ensures { IfOk result (λ r. statement r ≡ Forall (map control controls.now) (option_map term mask.now) (map element_assignment body.now)) }
{
    let controls = copied_controls(alloc, controls)?;
    let mask = copied_mask(alloc, mask)?;
    let body = element_assignments(alloc, body)?;
    Ok(Action::Forall(controls, mask, body))
}

/// IF and its ELSE IFs, in order.
#[cycle(copied_block)]
fn copied_arms(alloc: Global, arms: &[Arm]) -> Result<Vec<Arm>, AllocError>
    ensures { IfOk result (λ r. arms_of r.items ≡ arms_of arms.now) }
{
    let mut made = Vec::new(alloc);
    for a in arms {
        let one = copied_arm(alloc, a)?;
        made.push(one)?;
    }
    Ok(made)
}

/// A condition with its block.
#[cycle(copied_block)]
fn copied_arm(alloc: Global, a: &Arm) -> Result<Arm, AllocError>
    ensures { IfOk result (λ r. (rest : Arms) → with_arm r rest ≡ with_arm a.now rest) }
{
    let condition = copied_term(alloc, &a.condition)?;
    let body = copied_block(alloc, &a.body)?;
    Ok(Arm {
        line: a.line,
        condition,
        body,
    })
}
