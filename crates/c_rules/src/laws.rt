// Laws of the rules.
ghost use Rattle.std.specs.Prelude.{◌≡◌, ◌↔◌, ◌||◌, Bool, List, Ok, Err, Some, None, ℕ, true};
ghost use Rattle.c_tree.specs.declared.operator.BinOp.{BinOp};
ghost use Rattle.c_tree.specs.declared.operator.StepOp.{StepOp};
ghost use Rattle.c_tree.specs.declared.operator.UnOp.{UnOp};
ghost use Rattle.c_types.specs.Types.{LayoutT, Ty};
ghost use Rattle.c_rules.specs.Kinds.{is_number, same_type};
ghost use Rattle.c_types.specs.Kinds.{is_pointer};
ghost use Rattle.c_rules.specs.Lowest.{HasLowest, joined};
ghost use Rattle.c_rules.specs.Nodes.{array_rule, assign_rule, binary_gives, binary_rule, cast_rule, compound_rule, index_rule, size_rule, step_rule};
ghost use Rattle.c_rules.specs.Nodes.{store_rule, unary_rule};
ghost use Rattle.c_rules.specs.Rules.{judged};
ghost use Rattle.c_rules.specs.declared.code.Code.TheVariants as codes;

/// The answer at a node is its value where no rule is broken there, else the lowest code that is.
pub fn answers_have_the_lowest_code()
    ensures unary { (op : UnOp) (ty : Ty) (place : Bool) → HasLowest (unary_rule op ty place) }
    ensures binary { (whole : List Bool) (op : BinOp) (a b : Ty) → HasLowest (binary_rule whole op a b) }
    ensures index { (whole : List Bool) (a b : Ty) → HasLowest (index_rule whole a b) }
    ensures store { (layouts : List LayoutT) (whole : List Bool) (from to : Ty) → HasLowest (store_rule layouts whole from to) }
    ensures assign { (layouts : List LayoutT) (whole : List Bool) (to : Ty) (place : Bool) (from : Ty) → HasLowest (assign_rule layouts whole to place from) }
    ensures compound { (whole : List Bool) (op : BinOp) (to : Ty) (place : Bool) (from : Ty) → HasLowest (compound_rule whole op to place from) }
    ensures cast { (from to : Ty) → HasLowest (cast_rule from to) }
    ensures size { (layouts : List LayoutT) (whole : List Bool) (ty : Ty) → HasLowest (size_rule layouts whole ty) }
    ensures array { (layouts : List LayoutT) (whole : List Bool) (of : Ty) (count : ℕ) → HasLowest (array_rule layouts whole of count) }
{}

/// The test of types tells whether they are equal.
pub fn same_types_are_equal()
    ensures equal { (a b : Ty) → (same_type a b ≡ true) ↔ (a ≡ b) }
{}

/// `a op= b` is typed as `a = a op b`, with the lowest code of both; what can be stepped is a number or a pointer.
pub fn compound_assignments_are_assignments()
    ensures assignment { (layouts : List LayoutT) (whole : List Bool) (op : BinOp) (to : Ty) (place : Bool) (from value : Ty)
        → binary_gives op to from ≡ Some value
        → judged (compound_rule whole op to place from) ≡ joined (judged (binary_rule whole op to from)) (judged (assign_rule layouts whole to place value)) }
    ensures refused { (whole : List Bool) (op : BinOp) (to : Ty) (place : Bool) (from : Ty) → binary_gives op to from ≡ None
        → judged (compound_rule whole op to place from) ≡ Err codes.WrongType }
    ensures stepped { (whole : List Bool) (op : StepOp) (to : Ty) (place : Bool) (ty : Ty) → judged (step_rule whole op to place) ≡ Ok ty
        → (is_number to || is_pointer to) ≡ true }
{}
