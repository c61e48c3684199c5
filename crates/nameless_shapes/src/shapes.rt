//! Shapes and resources whose copies share their parts.
ghost use Rattle.std.specs.Prelude.{◌≡◌, true, ℕ, ◌+◌, ◌≤◌, ◌<◌, ◌^◌, map, IfOk, IsTrue, IfSome, None};
ghost use Rattle.outline_language.specs.Nameless as nameless;
ghost use Rattle.nameless_shapes.specs.Closed.{IsClosedShape, IsClosedRes, IsShapeKept, IsResKept, binders_of};
ghost use Rattle.nameless_shapes.specs.Reading.{shape_at, res_at};
ghost use Rattle.nameless_shapes.specs.Opening.{res_under};

use chan_base::Memory;
use chan_syntax::Ident;
use nameless_forms::{Form, Forms, Limit};
use sqlite_items::Items;
use std::alloc::Global;
use std::marker::Model;
use std::sync::Arc;

pub type Limits = Items<Limit>;

pub type Resources = Items<Resource>;

/// A protocol at some arguments, or its dual.
#[derive(Drop)]
pub struct Ref {
    pub dual: bool,
    pub name: Ident,
    pub args: Forms,
}

/// How many integers a resource binds, and what limits them.
#[derive(Drop)]
pub struct Bound {
    pub binders: usize,
    pub limits: Limits,
}

/// The outermost part of a shape.
#[cycle(shape)]
#[derive(Drop)]
pub enum Node {
    Unit,
    Int(Form),
    End(Ref),
    Pair(Resource, Resource),
    Sum(Resources),
}

/// A shape, whose copies share it. Its variables stand for at most `reach` binders around it.
#[cycle(shape)]
#[derive(Drop)]
pub struct Shape {
    node: Arc<Node, Global>,
    has_end: bool,
    reach: usize,
}

impl Model for Shape {
    ghost use Rattle.outline_language.specs.Nameless as nameless;
    ghost use Rattle.nameless_shapes.specs.ShapeCode.{shape_code};

    ghost Value = { nameless.Shape };

    ghost coded = { shape_code };

    ghost use Rattle.nameless_shapes.specs.Reading.{shape_at};
    ghost use Rattle.nameless_shapes.specs.Closed.{IsShapeKept};
    ghost use Rattle.nameless_shapes.specs.Sizes.{shape_size};

    ghost view = { λ shape. shape_at shape.node.value };

    ghost invariant = { λ shape. IsShapeKept shape.has_end shape.reach (shape_at shape.node.value) };

    ghost size = { shape_size };

    ghost use Rattle.nameless_shapes.specs.NodeSizes.{node_is_larger};

    ghost size_decreases = { λ shape holds. node_is_larger shape.node.value };
}

/// A resource, whose copies share it. Its variables stand for at most `reach` binders around it.
#[cycle(shape)]
#[derive(Drop)]
pub struct Resource {
    bound: Arc<Bound, Global>,
    shape: Shape,
    reach: usize,
}

impl Model for Resource {
    ghost use Rattle.outline_language.specs.Nameless as nameless;
    ghost use Rattle.nameless_shapes.specs.ShapeCode.{res_code};

    ghost Value = { nameless.Res };

    ghost coded = { res_code };

    ghost use Rattle.nameless_shapes.specs.Reading.{res_at};
    ghost use Rattle.nameless_shapes.specs.Closed.{IsResKept};
    ghost use Rattle.nameless_shapes.specs.Sizes.{res_size};
    ghost use Rattle.std.proofs.Common.{arith};

    ghost view = { λ res. res_at res.bound.value res.shape };

    ghost invariant = { λ res. IsResKept res.reach (res_at res.bound.value res.shape) };

    ghost size = { res_size };

    ghost size_decreases = { λ res holds. Prim.grind arith };
}

/// What a resource says.
#[derive(Clone, Copy)]
pub struct Under<'a> {
    pub binders: usize,
    pub limits: &'a [Limit],
    pub shape: &'a Shape,
}

impl Shape {
    pub(crate) fn keep(
        alloc: Global,
        node: Node,
        has_end: bool,
        reach: usize,
    ) -> Result<Shape, Memory>
        requires { IsShapeKept has_end reach (shape_at node) }
        ensures { IfOk result (λ shape. shape ≡ shape_at node) }
    {
        let node = Arc::new(alloc, node)?;
        Ok(Shape {
            node,
            has_end,
            reach,
        })
    }

    /// The outermost part, which copies share.
    pub fn get(&self) -> &Node
        ensures { shape_at result.now ≡ self.now }
    {
        &self.node
    }

    /// A copy, which shares the whole shape.
    pub fn copy(&self) -> Result<Shape, Memory>
        ensures { IfOk result (λ copy. copy ≡ self.now) }
    {
        let node = Arc::try_clone(&self.node)?;
        Ok(Shape {
            node,
            has_end: self.has_end,
            reach: self.reach,
        })
    }

    /// Whether an end stands in it, which isn't counted again.
    pub fn has_end(&self) -> bool
        ensures { result ≡ nameless.has_end self.now }
    {
        self.has_end
    }

    /// Instances for the binders around so many others, or more, change nothing.
    pub fn reach(&self) -> usize
        ensures closed { IsClosedShape result self.now }
        ensures fits { nameless.shape_fits self.now ≡ true }
    {
        self.reach
    }
}

impl Resource {
    pub(crate) fn keep(
        alloc: Global,
        bound: Bound,
        shape: Shape,
        reach: usize,
    ) -> Result<Resource, Memory>
        requires { IsResKept reach (res_at bound shape) }
        ensures { IfOk result (λ res. res ≡ res_at bound shape) }
    {
        let bound = Arc::new(alloc, bound)?;
        Ok(Resource {
            bound,
            shape,
            reach,
        })
    }

    /// The binders, the limits and the shape, which copies share.
    pub fn get(&self) -> Under<'_>
        ensures { res_under result ≡ self.now }
    {
        Under {
            binders: self.bound.binders,
            limits: self.bound.limits.as_slice(),
            shape: &self.shape,
        }
    }

    /// A copy, which shares the whole resource.
    pub fn copy(&self) -> Result<Resource, Memory>
        ensures { IfOk result (λ copy. copy ≡ self.now) }
    {
        let bound = Arc::try_clone(&self.bound)?;
        let shape = self.shape.copy()?;
        Ok(Resource {
            bound,
            shape,
            reach: self.reach,
        })
    }

    /// Whether an end stands in it, which isn't counted again.
    pub fn has_end(&self) -> bool
        ensures { result ≡ nameless.has_end_inside self.now }
    {
        self.shape.has_end()
    }

    /// Instances for the binders around so many others, or more, change nothing.
    pub fn reach(&self) -> usize
        ensures closed { IsClosedRes result self.now }
        ensures fits { nameless.res_fits self.now ≡ true }
        ensures room { result + binders_of self.now < 2 ^ 64 }
    {
        self.reach
    }
}
