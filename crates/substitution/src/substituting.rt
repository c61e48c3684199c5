//! Resources with terms put in.
ghost use Rattle.std.specs.Prelude.{◌≡◌, ◌+◌, ◌≤◌, ◌∷◌, suc, [], true, false, length, take, map, flat_map, All, IfOk, IfErr};
ghost use Rattle.core_language.specs.Resources.{Int, End};
ghost use Rattle.linear_forms.specs.Terms.{put_of};
ghost use Rattle.linear_forms.specs.Substitution.{Fits, AllFit, Each, IsNormalPut, IsSubst, terms_of_shape, terms_of_res};
ghost use Rattle.linear_forms.specs.Replacing.{IsShort, IsShortShape, IsShortRes, ArePutShort, IsReady, IsReadyLimit};
ghost use Rattle.chan_syntax.specs.Reading.{term_of, limit_of, ref_of, shape_of, res_of};
ghost use Rattle.substitution.specs.Places.{Words, IsPlacedTerm, ArePlaced, pieces_of_limit, pieces_of_ref, pieces_of_shape, pieces_of_res};
ghost use Rattle.substitution.specs.Likeness.{TermLike, TermsLike, LimitLike, LimitsLike, RefLike, ShapeLike, ResLike, ResourcesLike, Keeps, TermFits, TermsFit, LimitFits, LimitsFit, ShapeFits, ResFits, ResourcesFit, IsMisfit, pieces_of_limits, AreSafeIn, AreSafeBelow, AreLonger};
ghost use Rattle.substitution.specs.Scopes.{put_in, before_of, after_of};

use crate::catching::catches;
use crate::faults::SubstFault;
use crate::lengths::{longest_put, with_res};
use crate::putting::sums_of;
use crate::scope::{Binder, Put, Scope, joined, made_names, puts_of};
use chan_base::Memory;
use chan_syntax::{
    Bound, Ident, Idents, Limit, Limits, Ref, Res, Resources, Shape, Term, Terms, copy_spans,
};
use sqlite_items::{Boxed, Items};
use std::alloc::Global;

fn subst_term(alloc: Global, put: &[Put], scope: &[Binder], term: &Term) -> Result<Term, SubstFault>
    requires { IsReady (map put_in put.now) (before_of scope.now) (after_of scope.now) (term_of term.now) }
    ensures ok { IfOk result (λ put_term. TermLike put.now scope.now term.now put_term) }
    ensures places { IfOk result (λ put_term. IsPlacedTerm put.now (before_of scope.now) (after_of scope.now) term.now put_term) }
    ensures err { IfErr result (λ fault. IsMisfit fault (TermFits put.now scope.now term.now)) }
{
    let sums = sums_of(alloc, scope, put, term.parts.as_slice())?;
    let put_term = sums.term(alloc, term.span)?;
    Ok(put_term)
}

fn subst_terms_in(
    alloc: Global,
    put: &[Put],
    scope: &[Binder],
    terms: &[Term],
) -> Result<Terms, SubstFault>
    requires { All (IsReady (map put_in put.now) (before_of scope.now) (after_of scope.now)) (map term_of terms.now) }
    ensures ok { IfOk result (λ all. TermsLike put.now scope.now terms.now all) }
    ensures places { IfOk result (λ all. Keeps put.now scope.now (λ b. map (Words b) terms.now) (λ b. map (Words b) all)) }
    ensures err { IfErr result (λ fault. IsMisfit fault (TermsFit put.now scope.now terms.now)) }
{
    let mut all = Items::new(alloc);
    for term in terms {
        all.push(subst_term(alloc, put, scope, term)?)?;
    }
    Ok(all)
}

fn subst_limit(
    alloc: Global,
    put: &[Put],
    scope: &[Binder],
    limit: &Limit,
) -> Result<Limit, SubstFault>
    requires { IsReadyLimit (map put_in put.now) (before_of scope.now) (after_of scope.now) (limit_of limit.now) }
    ensures ok { IfOk result (λ put_limit. LimitLike put.now scope.now limit.now put_limit) }
    ensures places { IfOk result (λ put_limit. Keeps put.now scope.now (λ b. pieces_of_limit b limit.now) (λ b. pieces_of_limit b put_limit)) }
    ensures err { IfErr result (λ fault. IsMisfit fault (LimitFits put.now scope.now limit.now)) }
{
    Ok(Limit {
        left: subst_term(alloc, put, scope, &limit.left)?,
        relation: limit.relation,
        right: subst_term(alloc, put, scope, &limit.right)?,
    })
}

fn subst_limits(
    alloc: Global,
    put: &[Put],
    scope: &[Binder],
    limits: &[Limit],
) -> Result<Limits, SubstFault>
    requires { All (IsReadyLimit (map put_in put.now) (before_of scope.now) (after_of scope.now)) (map limit_of limits.now) }
    ensures ok { IfOk result (λ all. LimitsLike put.now scope.now limits.now all) }
    ensures places { IfOk result (λ all. Keeps put.now scope.now (pieces_of_limits limits.now) (pieces_of_limits all)) }
    ensures err { IfErr result (λ fault. IsMisfit fault (LimitsFit put.now scope.now limits.now)) }
{
    let mut all = Items::new(alloc);
    for limit in limits {
        all.push(subst_limit(alloc, put, scope, limit)?)?;
    }
    Ok(all)
}

fn subst_ref(alloc: Global, put: &[Put], scope: &[Binder], from: &Ref) -> Result<Ref, SubstFault>
    requires { All (IsReady (map put_in put.now) (before_of scope.now) (after_of scope.now)) (map term_of from.now.args) }
    ensures ok { IfOk result (λ put_ref. RefLike put.now scope.now from.now put_ref) }
    ensures places { IfOk result (λ put_ref. Keeps put.now scope.now (λ b. pieces_of_ref b from.now) (λ b. pieces_of_ref b put_ref)) }
    ensures err { IfErr result (λ fault. IsMisfit fault (TermsFit put.now scope.now from.now.args)) }
{
    Ok(Ref {
        dual: from.dual,
        name: from.name.copy()?,
        name_span: from.name_span,
        args: subst_terms_in(alloc, put, scope, from.args.as_slice())?,
        span: from.span,
    })
}

fn subst_int(alloc: Global, put: &[Put], scope: &[Binder], term: &Term) -> Result<Shape, SubstFault>
    requires { IsReady (map put_in put.now) (before_of scope.now) (after_of scope.now) (term_of term.now) }
    ensures ok { IfOk result (λ shape. ShapeLike put.now scope.now (Int (term_of term.now)) shape) }
    ensures places { IfOk result (λ shape. Keeps put.now scope.now (λ b. Words b term.now ∷ []) (λ b. pieces_of_shape b shape)) }
    ensures err { IfErr result (λ fault. IsMisfit fault (ShapeFits put.now scope.now (Int (term_of term.now)))) }
{
    let put_term = subst_term(alloc, put, scope, term)?;
    Ok(Shape::Int(put_term))
}

fn subst_end(alloc: Global, put: &[Put], scope: &[Binder], end: &Ref) -> Result<Shape, SubstFault>
    requires { All (IsReady (map put_in put.now) (before_of scope.now) (after_of scope.now)) (map term_of end.now.args) }
    ensures ok { IfOk result (λ shape. ShapeLike put.now scope.now (End (ref_of end.now)) shape) }
    ensures places { IfOk result (λ shape. Keeps put.now scope.now (λ b. pieces_of_ref b end.now) (λ b. pieces_of_shape b shape)) }
    ensures err { IfErr result (λ fault. IsMisfit fault (ShapeFits put.now scope.now (End (ref_of end.now)))) }
{
    let put_ref = subst_ref(alloc, put, scope, end)?;
    Ok(Shape::End(put_ref))
}

fn sum(left: usize, right: usize) -> Result<usize, Memory>
    ensures { IfOk result (λ sum. sum ≡ left + right) }
{
    left.checked_add(right).ok_or(Memory)
}

/// The length of a name that is made under so many binders; no such length is past what memory has.
fn made_length(longest: usize, around: usize) -> Result<usize, Memory>
    ensures { IfOk result (λ size. size ≡ suc longest + around) }
{
    longest
        .checked_add(around)
        .and_then(|sum| sum.checked_add(1))
        .ok_or(Memory)
}

/// The name with dots after it, up to this length.
fn lengthened(alloc: Global, name: &Ident, size: usize) -> Result<Ident, Memory>
    requires { length name.now ≤ size }
    ensures { IfOk result (λ made. length made ≡ size) }
{
    let mut bytes = Vec::with_capacity(alloc, size)?;
    for byte in name.as_slice() {
        bytes.push(*byte)?;
    }
    for _ in name.as_slice().len()..size {
        bytes.push(b'.')?;
    }
    Ok(Ident::from_slice(alloc, bytes.as_slice())?)
}

/// A binder with so many around it, which has a new name where its own would catch a name.
fn binder(
    alloc: Global,
    longest: usize,
    caught: bool,
    name: &Ident,
    around: usize,
) -> Result<Binder, Memory>
    requires { IsShort longest name.now }
    ensures name { IfOk result (λ binder. binder.name ≡ name.now) }
    ensures kept { IfOk result (λ binder. caught ≡ false → binder.made ≡ name.now) }
    ensures made { IfOk result (λ binder. caught ≡ true → length binder.made ≡ suc longest + around) }
{
    let made = if caught {
        lengthened(alloc, name, made_length(longest, around)?)?
    } else {
        name.copy()?
    };
    Ok(Binder {
        name: name.copy()?,
        made,
    })
}

/// The binders of a resource under a scope.
fn binders(
    alloc: Global,
    longest: usize,
    put: &[Put],
    scope: &Scope,
    res: &Res,
) -> Result<Scope, Memory>
    requires { All (IsShort longest) res.now.bound.names }
    ensures before { IfOk result (λ group. before_of group ≡ res.now.bound.names) }
    ensures safe { IfOk result (λ group. AreSafeBelow longest put.now scope.now (res_of res.now) group) }
    ensures longer { IfOk result (λ group. AreLonger longest put.now scope.now (res_of res.now) res.now.bound.names group) }
{
    let mut group = Items::new(alloc);
    let names = res.bound.names.as_slice();
    for index in 0..names.len() {
        let name = &names[index];
        let caught = catches(alloc, scope, put, res, name)?;
        let around = sum(scope.len(), names.len() - 1 - index)?;
        let made = binder(alloc, longest, caught, name, around)?;
        group.push(made)?;
    }
    Ok(group)
}

/// The binders that the scope begins with, under their new names, and the limits that they keep.
fn subst_bound(
    alloc: Global,
    put: &[Put],
    scope: &[Binder],
    bound: &Bound,
) -> Result<Bound, SubstFault>
    requires held { length bound.now.names ≤ length scope.now }
    requires ready { All (IsReadyLimit (map put_in put.now) (before_of scope.now) (after_of scope.now)) (map limit_of bound.now.limits) }
    ensures names { IfOk result (λ all. all.names ≡ after_of (take (length bound.now.names) scope.now)) }
    ensures spans { IfOk result (λ all. all.names_spans ≡ bound.now.names_spans) }
    ensures ok { IfOk result (λ all. LimitsLike put.now scope.now bound.now.limits all.limits) }
    ensures places { IfOk result (λ all. Keeps put.now scope.now (pieces_of_limits bound.now.limits) (pieces_of_limits all.limits)) }
    ensures err { IfErr result (λ fault. IsMisfit fault (LimitsFit put.now scope.now bound.now.limits)) }
{
    let names = made_names(alloc, &scope[..bound.names.len()])?;
    let names_spans = copy_spans(alloc, &bound.names_spans)?;
    let limits = subst_limits(alloc, put, scope, bound.limits.as_slice())?;
    Ok(Bound {
        names,
        names_spans,
        limits,
    })
}

#[cycle(substituting)]
fn subst_shape(
    alloc: Global,
    longest: usize,
    put: &[Put],
    scope: &Scope,
    shape: &Shape,
) -> Result<Shape, SubstFault>
    requires safe { AreSafeIn longest put.now scope.now (terms_of_shape (before_of scope.now) (shape_of shape.now)) }
    requires short { IsShortShape longest (shape_of shape.now) }
    requires put_short { ArePutShort longest (map put_in put.now) }
    ensures ok { IfOk result (λ put_shape. ShapeLike put.now scope.now (shape_of shape.now) put_shape) }
    ensures places { IfOk result (λ put_shape. Keeps put.now scope.now (λ b. pieces_of_shape b shape.now) (λ b. pieces_of_shape b put_shape)) }
    ensures err { IfErr result (λ fault. IsMisfit fault (ShapeFits put.now scope.now (shape_of shape.now))) }
{
    match shape {
        Shape::Unit => Ok(Shape::Unit),
        Shape::Int(term) => subst_int(alloc, put, scope.as_slice(), term),
        Shape::End(end) => subst_end(alloc, put, scope.as_slice(), end),
        Shape::Pair(first, second) => {
            let first = subst_boxed(alloc, longest, put, scope, first.get())?;
            let second = subst_boxed(alloc, longest, put, scope, second.get())?;
            Ok(Shape::Pair(first, second))
        }
        Shape::Sum(arms) => {
            let arms = subst_resources(alloc, longest, put, scope, arms.as_slice())?;
            Ok(Shape::Sum(arms))
        }
    }
}

#[cycle(substituting)]
fn subst_boxed(
    alloc: Global,
    longest: usize,
    put: &[Put],
    scope: &Scope,
    res: &Res,
) -> Result<Boxed<Res>, SubstFault>
    requires safe { AreSafeIn longest put.now scope.now (terms_of_res (before_of scope.now) (res_of res.now)) }
    requires short { IsShortRes longest (res_of res.now) }
    requires put_short { ArePutShort longest (map put_in put.now) }
    ensures ok { IfOk result (λ put_res. ResLike put.now scope.now res.now put_res) }
    ensures places { IfOk result (λ put_res. Keeps put.now scope.now (λ b. pieces_of_res b res.now) (λ b. pieces_of_res b put_res)) }
    ensures err { IfErr result (λ fault. IsMisfit fault (ResFits put.now scope.now (res_of res.now))) }
{
    let boxed = Boxed::new(alloc, subst_res(alloc, longest, put, scope, res)?)?;
    Ok(boxed)
}

#[cycle(substituting)]
fn subst_resources(
    alloc: Global,
    longest: usize,
    put: &[Put],
    scope: &Scope,
    resources: &[Res],
) -> Result<Resources, SubstFault>
    requires safe { All (λ r. AreSafeIn longest put.now scope.now (terms_of_res (before_of scope.now) r)) (map res_of resources.now) }
    requires short { All (IsShortRes longest) (map res_of resources.now) }
    requires put_short { ArePutShort longest (map put_in put.now) }
    ensures ok { IfOk result (λ all. ResourcesLike put.now scope.now resources.now all) }
    ensures places { IfOk result (λ all. Keeps put.now scope.now (λ b. flat_map (pieces_of_res b) resources.now) (λ b. flat_map (pieces_of_res b) all)) }
    ensures err { IfErr result (λ fault. IsMisfit fault (ResourcesFit put.now scope.now resources.now)) }
{
    let mut all = Items::new(alloc);
    for resource in resources {
        all.push(subst_res(alloc, longest, put, scope, resource)?)?;
    }
    Ok(all)
}

#[cycle(substituting)]
fn subst_res(
    alloc: Global,
    longest: usize,
    put: &[Put],
    scope: &Scope,
    res: &Res,
) -> Result<Res, SubstFault>
    requires safe { AreSafeIn longest put.now scope.now (terms_of_res (before_of scope.now) (res_of res.now)) }
    requires short { IsShortRes longest (res_of res.now) }
    requires put_short { ArePutShort longest (map put_in put.now) }
    ensures ok { IfOk result (λ put_res. ResLike put.now scope.now res.now put_res) }
    ensures places { IfOk result (λ put_res. Keeps put.now scope.now (λ b. pieces_of_res b res.now) (λ b. pieces_of_res b put_res)) }
    ensures err { IfErr result (λ fault. IsMisfit fault (ResFits put.now scope.now (res_of res.now))) }
{
    let group = binders(alloc, longest, put, scope, res)?;
    let scope = joined(group, scope)?;
    let bound = subst_bound(alloc, put, scope.as_slice(), &res.bound)?;
    let shape = subst_shape(alloc, longest, put, &scope, &res.shape)?;
    Ok(Res { bound, shape })
}

/// The resource in which, at once, each free occurrence of one of the names is replaced by the term
/// at its place and every term is in normal form. Of a name that stands twice the first place counts.
/// A binder that would catch a name of a term that is put in has a new name: its own, with dots.
pub fn subst(alloc: Global, res: &Res, names: &Idents, by: &Terms) -> Result<Res, SubstFault>
    requires { length names.now ≡ length by.now }
    ensures ok { IfOk result (λ put. IsSubst (put_of names.now (map term_of by.now)) (res_of res.now) (res_of put)) }
    ensures places { IfOk result (λ put. ArePlaced names.now by.now (pieces_of_res [] res.now) (pieces_of_res [] put)) }
    ensures err { IfErr result (λ fault. IsMisfit fault (AllFit (put_of names.now (map term_of by.now)) (terms_of_res [] (res_of res.now)))) }
{
    let put = puts_of(alloc, names, by)?;
    let longest = with_res(longest_put(put.as_slice()), res);
    let scope = Items::new(alloc);
    subst_res(alloc, longest, put.as_slice(), &scope, res)
}

/// The terms in which terms are put in at once, in normal form.
pub fn subst_terms(
    alloc: Global,
    terms: &Terms,
    names: &Idents,
    by: &Terms,
) -> Result<Terms, SubstFault>
    requires { length names.now ≡ length by.now }
    ensures ok { IfOk result (λ put. Each (IsNormalPut (put_of names.now (map term_of by.now)) [] []) (map term_of terms.now) (map term_of put)) }
    ensures places { IfOk result (λ put. ArePlaced names.now by.now (map (Words []) terms.now) (map (Words []) put)) }
    ensures err { IfErr result (λ fault. IsMisfit fault (All (Fits (put_of names.now (map term_of by.now)) []) (map term_of terms.now))) }
{
    let put = puts_of(alloc, names, by)?;
    let scope: Scope = Items::new(alloc);
    subst_terms_in(alloc, put.as_slice(), scope.as_slice(), terms.as_slice())
}
