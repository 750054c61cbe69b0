// What holds of the rules by themselves.
ghost use Rattle.std.specs.Prelude.{◌≡◌, List};
ghost use Rattle.c_tree.specs.Tree.{ExprT};
ghost use Rattle.c_types.specs.Typed.{TExprT};
ghost use Rattle.c_exprs.specs.Env.{Ctx, Text};
ghost use Rattle.c_exprs.specs.Types.{Types};

/// An expression has one typed tree at most.
pub fn trees_are_unique()
    ensures one { (c : Ctx) (ts us vs : List Text) (e : ExprT) (x y : TExprT) → Types c ts e x us → Types c ts e y vs → x ≡ y }
{}
