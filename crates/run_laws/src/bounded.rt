// How long a turn of loaded code is.
ghost use Rattle.std.specs.Prelude.{◌≡◌, ℕ, suc, ◌*◌, ◌≤◌, List, length, drop, Option};
ghost use Rattle.core_tree.specs.declared.value.Value.{Value};
ghost use Rattle.script_meaning.specs.Requests.{Sight, Setting};
ghost use Rattle.code_meaning.specs.Code.{Script};
ghost use Rattle.code_meaning.specs.Execution.{run_from};
ghost use Rattle.code_meaning.specs.LookUp.{Body};
ghost use Rattle.code_meaning.specs.Operands.{Home, Inner};
ghost use Rattle.run_laws.specs.CodeSteps.{steps_from, carried_out, turn_steps, length_at};
ghost use Rattle.run_laws.specs.Exclusive.{how_many, is_number};

/// The steps of a body are what its run does: the instructions of these numbers, carried out one after another, come to the act at which
/// the run stops.
pub fn code_steps_are_the_run()
    ensures { (home : Home) (at : ℕ) (inner : Inner) → at ≤ length home.function.code → run_from home at (drop at home.function.code) 0 inner ≡ carried_out home (steps_from home at (drop at home.function.code) 0 inner) inner }
{}

/// A body reaches the act that ends its turn within as many instructions as its function has, for each pass
/// of the quantum, and a turn executes each instruction at most once for each pass.
pub fn code_turn_is_bounded()
    ensures bounded { (scripts : List Script) (setting : Setting) (left : ℕ) (body : Body) (reply : Option Value) (sight : Sight) → length (turn_steps scripts setting left body reply sight) ≤ suc left * length_at scripts body.place }
    ensures once { (scripts : List Script) (setting : Setting) (left : ℕ) (body : Body) (reply : Option Value) (sight : Sight) (number : ℕ) → how_many (is_number number) (turn_steps scripts setting left body reply sight) ≤ suc left }
{}
