//! What a walk asks of the rules.
ghost use Rattle.std.specs.Prelude.{◌≡◌, ◌<◌, ◌++◌, ◌∷◌, [], List, length, Ok, IfErr, OnOk, OnErr};
ghost use Rattle.outline_language.specs.Contexts.{Context};
ghost use Rattle.outline_walk.specs.Forms.{Setting, form_at, IsNode, Meets, Fails, picked};

use chan_base::Memory;
use chan_syntax::Ident;
use core_programs::Node;
use outline_obligations::ContextFault;
use std::alloc::Global;

/// The rules in a function of a program: the context of the form that comes next, and older
/// contexts to which it can go back.
pub trait Outlining {
    ghost setting: { Self → Setting };

    ghost context: { Self → Context };

    /// The contexts to which it can go back, the latest one last.
    ghost saved: { Self → List Context };

    /// The names of the integer variables of the context.
    fn names(&self) -> &[Ident]
        ensures { result.now ≡ (context self.now).ints };

    /// Makes of the context what the rule of a form makes of it. Where the rule fails, the context
    /// stays as it was.
    fn meet(&mut self, alloc: Global, node: &Node) -> Result<(), ContextFault>
        requires { IsNode (setting self.old) node.now }
        ensures ok { OnOk result (Meets (setting self.old) (context self.old) (context self.new) (form_at (setting self.old) node.now)) }
        ensures err { IfErr result (Fails (setting self.old) (context self.old) (form_at (setting self.old) node.now)) }
        ensures stays { OnErr result (context self.new ≡ context self.old) }
        ensures saved { saved self.new ≡ saved self.old }
        ensures setting { setting self.new ≡ setting self.old };

    /// Makes of the context that the rule of a form left the one of the body with this number.
    fn pick(&mut self, alloc: Global, node: &Node, number: usize) -> Result<(), Memory>
        requires { (after : Context) × (picked (context self.old) (form_at (setting self.old) node.now) number ≡ Ok after) }
        ensures picked { OnOk result (picked (context self.old) (form_at (setting self.old) node.now) number ≡ Ok (context self.new)) }
        ensures saved { saved self.new ≡ saved self.old }
        ensures setting { setting self.new ≡ setting self.old };

    /// Keeps the context, to go back to it.
    fn save(&mut self) -> Result<(), Memory>
        ensures context { context self.new ≡ context self.old }
        ensures saved { OnOk result (saved self.new ≡ saved self.old ++ context self.old ∷ []) }
        ensures setting { setting self.new ≡ setting self.old };

    /// Goes back to the context that was kept last, and keeps it no longer.
    fn go_back(&mut self)
        requires { 0 < length (saved self.old) }
        ensures saved { saved self.old ≡ saved self.new ++ context self.new ∷ [] }
        ensures setting { setting self.new ≡ setting self.old };
}
