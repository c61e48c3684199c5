//! Copies of what a program's text names.
ghost use Rattle.chan_syntax.specs.declared.resources.Equation.TheVariants.{Branch, Recv, Send};
ghost use Rattle.std.specs.Prelude.{◌≡◌, IfOk};

use crate::identifiers::{Ident, Idents};
use crate::linear::{Bound, Limit, Limits, Part, Term, TermParts, Terms};
use crate::resources::{Equation, Param, Params, Ref, Res, Resources, Shape};
use chan_base::{Memory, Spans};
use sqlite_items::{Boxed, Items};
use std::alloc::Global;

pub fn copy_names(alloc: Global, names: &Idents) -> Result<Idents, Memory>
    ensures { IfOk result (λ copy. copy ≡ names.now) }
{
    let mut copy = Items::new(alloc);
    for name in names.as_slice() {
        copy.push(name.copy()?)?;
    }
    Ok(copy)
}

pub fn copy_spans(alloc: Global, spans: &Spans) -> Result<Spans, Memory>
    ensures { IfOk result (λ copy. copy ≡ spans.now) }
{
    Ok(Items::from_slice(alloc, spans.as_slice())?)
}

fn copy_parts(alloc: Global, parts: &TermParts) -> Result<TermParts, Memory>
    ensures { IfOk result (λ copy. copy ≡ parts.now) }
{
    let mut copy = Items::new(alloc);
    for part in parts.as_slice() {
        copy.push(part.copy()?)?;
    }
    Ok(copy)
}

pub fn copy_terms(alloc: Global, terms: &Terms) -> Result<Terms, Memory>
    ensures { IfOk result (λ copy. copy ≡ terms.now) }
{
    let mut copy = Items::new(alloc);
    for term in terms.as_slice() {
        copy.push(term.copy(alloc)?)?;
    }
    Ok(copy)
}

fn copy_limits(alloc: Global, limits: &Limits) -> Result<Limits, Memory>
    ensures { IfOk result (λ copy. copy ≡ limits.now) }
{
    let mut copy = Items::new(alloc);
    for limit in limits.as_slice() {
        copy.push(limit.copy(alloc)?)?;
    }
    Ok(copy)
}

fn copy_name(name: &Option<Ident>) -> Result<Option<Ident>, Memory>
    ensures { IfOk result (λ copy. copy ≡ name.now) }
{
    match name {
        Some(name) => Ok(Some(name.copy()?)),
        None => Ok(None),
    }
}

impl Part {
    pub fn copy(&self) -> Result<Part, Memory>
        ensures { IfOk result (λ copy. copy ≡ self.now) }
    {
        Ok(Part {
            negative: self.negative,
            factor: self.factor,
            name: copy_name(&self.name)?,
            name_span: self.name_span,
        })
    }
}

impl Term {
    pub fn copy(&self, alloc: Global) -> Result<Term, Memory>
        ensures { IfOk result (λ copy. copy ≡ self.now) }
    {
        Ok(Term {
            parts: copy_parts(alloc, &self.parts)?,
            span: self.span,
        })
    }
}

impl Limit {
    pub fn copy(&self, alloc: Global) -> Result<Limit, Memory>
        ensures { IfOk result (λ copy. copy ≡ self.now) }
    {
        Ok(Limit {
            left: self.left.copy(alloc)?,
            relation: self.relation,
            right: self.right.copy(alloc)?,
        })
    }
}

impl Bound {
    pub fn copy(&self, alloc: Global) -> Result<Bound, Memory>
        ensures { IfOk result (λ copy. copy ≡ self.now) }
    {
        Ok(Bound {
            names: copy_names(alloc, &self.names)?,
            names_spans: copy_spans(alloc, &self.names_spans)?,
            limits: copy_limits(alloc, &self.limits)?,
        })
    }
}

impl Ref {
    pub fn copy(&self, alloc: Global) -> Result<Ref, Memory>
        ensures { IfOk result (λ copy. copy ≡ self.now) }
    {
        Ok(Ref {
            dual: self.dual,
            name: self.name.copy()?,
            name_span: self.name_span,
            args: copy_terms(alloc, &self.args)?,
            span: self.span,
        })
    }
}

impl Shape {
    #[cycle(copying)]
    pub fn copy(&self, alloc: Global) -> Result<Shape, Memory>
        ensures { IfOk result (λ copy. copy ≡ self.now) }
    {
        match self {
            Shape::Unit => Ok(Shape::Unit),
            Shape::Int(term) => Ok(Shape::Int(term.copy(alloc)?)),
            Shape::End(proto) => Ok(Shape::End(proto.copy(alloc)?)),
            Shape::Pair(first, second) => {
                let first = Boxed::new(alloc, first.get().copy(alloc)?)?;
                let second = Boxed::new(alloc, second.get().copy(alloc)?)?;
                Ok(Shape::Pair(first, second))
            }
            Shape::Sum(arms) => Ok(Shape::Sum(copy_resources(alloc, arms)?)),
        }
    }
}

#[cycle(copying)]
fn copy_resources(alloc: Global, resources: &Resources) -> Result<Resources, Memory>
    ensures { IfOk result (λ copy. copy ≡ resources.now) }
{
    let mut copy = Items::new(alloc);
    for resource in resources.as_slice() {
        copy.push(resource.copy(alloc)?)?;
    }
    Ok(copy)
}

impl Res {
    #[cycle(copying)]
    pub fn copy(&self, alloc: Global) -> Result<Res, Memory>
        ensures { IfOk result (λ copy. copy ≡ self.now) }
    {
        Ok(Res {
            bound: self.bound.copy(alloc)?,
            shape: self.shape.copy(alloc)?,
        })
    }
}

impl Param {
    pub fn copy(&self, alloc: Global) -> Result<Param, Memory>
        ensures { IfOk result (λ copy. copy ≡ self.now) }
    {
        Ok(Param {
            name: self.name.copy()?,
            name_span: self.name_span,
            shape: self.shape.copy(alloc)?,
        })
    }
}

pub fn copy_params(alloc: Global, params: &Params) -> Result<Params, Memory>
    ensures { IfOk result (λ copy. copy ≡ params.now) }
{
    let mut copy = Items::new(alloc);
    for param in params.as_slice() {
        copy.push(param.copy(alloc)?)?;
    }
    Ok(copy)
}

fn copy_next(alloc: Global, next: &Option<Ref>) -> Result<Option<Ref>, Memory>
    ensures { IfOk result (λ copy. copy ≡ next.now) }
{
    match next {
        Some(next) => Ok(Some(next.copy(alloc)?)),
        None => Ok(None),
    }
}

fn copy_branch(
    alloc: Global,
    left: &Term,
    right: &Term,
    yes: &Ref,
    no: &Ref,
) -> Result<Equation, Memory>
    ensures { IfOk result (λ copy. copy ≡ Branch left.now right.now yes.now no.now) }
{
    Ok(Equation::Branch(
        left.copy(alloc)?,
        right.copy(alloc)?,
        yes.copy(alloc)?,
        no.copy(alloc)?,
    ))
}

fn copy_send(alloc: Global, res: &Res, next: &Option<Ref>) -> Result<Equation, Memory>
    ensures { IfOk result (λ copy. copy ≡ Send res.now next.now) }
{
    Ok(Equation::Send(res.copy(alloc)?, copy_next(alloc, next)?))
}

fn copy_recv(alloc: Global, res: &Res, next: &Option<Ref>) -> Result<Equation, Memory>
    ensures { IfOk result (λ copy. copy ≡ Recv res.now next.now) }
{
    Ok(Equation::Recv(res.copy(alloc)?, copy_next(alloc, next)?))
}

impl Equation {
    pub fn copy(&self, alloc: Global) -> Result<Equation, Memory>
        ensures { IfOk result (λ copy. copy ≡ self.now) }
    {
        match self {
            Equation::Send(res, next) => copy_send(alloc, res, next),
            Equation::Recv(res, next) => copy_recv(alloc, res, next),
            Equation::Close => Ok(Equation::Close),
            Equation::Wait => Ok(Equation::Wait),
            Equation::Branch(left, right, yes, no) => copy_branch(alloc, left, right, yes, no),
        }
    }
}
