//! Laws on programs, steps, automata and covers: functions with an empty body, whose contract is
//! the law. Shown in `specs/lemmas/` and `proofs/`: the answer of each names the lemma.
ghost use Rattle.std.specs.Prelude.{◌≡◌, ℕ, ◌^◌, ◌<◌, ◌↔◌, List, Some, length, slice_get};
ghost use Rattle.std.specs.List.{AllByRecursion};
ghost use Rattle.cpa_model.specs.declared.automaton.Act.{Act};
ghost use Rattle.cpa_model.specs.declared.automaton.Cfa.{Cfa};
ghost use Rattle.cpa_model.specs.declared.automaton.Edge.{Edge};
ghost use Rattle.cpa_model.specs.declared.facts.Elem.{Elem};
ghost use Rattle.cpa_model.specs.declared.program.Program.{Program};
ghost use Rattle.cpa_model.specs.declared.program.Stmt.{Stmt};
ghost use Rattle.cpa_model.specs.declared.states.State.{State};
ghost use Rattle.cpa_model.specs.Acts.{IsEdgeOf};
ghost use Rattle.cpa_model.specs.Automata.{EdgeStep, IsAutomaton, IsAutomatonOf, IsStateOf};
ghost use Rattle.cpa_model.specs.Automata.{initial_state};
ghost use Rattle.cpa_model.specs.Covers.{CoversAutomaton, IsCover, IsSafe};
ghost use Rattle.cpa_model.specs.Programs.{IsNumbered, IsWellFormed, parts_of, point_count};
ghost use Rattle.cpa_model.specs.Stacks.{stack_after};
ghost use Rattle.cpa_model.specs.States.{initial_of};
ghost use Rattle.cpa_model.specs.Steps.{BeginsInState, Moves, Step, StepsKeepStates, StepsStack};
ghost use Rattle.cpa_model.specs.TreeLaws.{TreeLaws};

/// A law: the statements of a numbered program are trees, each with one origin and one successor.
/// The parts of a block are its items.
pub fn statements_are_trees()
    ensures trees { (P : Program) → IsNumbered P → TreeLaws P }
    ensures items { (items : List ℕ) → parts_of (Stmt.Block items) ≡ items }
{}

/// A law: each move of a well-formed program leads from a point of it to a point of it.
pub fn moves_stay_inside()
    ensures { (P : Program) (p : ℕ) (a : Act) (q : ℕ) → IsWellFormed P → Moves P p a q
        → (p < point_count P) × (q < point_count P) }
{}

/// A law: of a well-formed program, whatever steps from a state, in its point, its stack and its
/// store, is a state again.
pub fn steps_keep_states()
    ensures { (P : Program) → IsWellFormed P → StepsKeepStates P }
{}

/// A law: the initial state of a well-formed program is a state.
pub fn initial_is_state()
    ensures { (P : Program) → IsWellFormed P → BeginsInState P }
{}

/// A law: the stack that an act leaves is the one to which its step leads; where it leaves none, no
/// step leads on.
pub fn stacks_are_left()
    ensures { (act : Act) (old new : List ℕ) → StepsStack act old new
        ↔ (stack_after act old ≡ Some new) }
{}

/// A law: the automaton of a program begins where the program does, in a state of its own, and its
/// steps along its edges are the program's steps.
pub fn edges_are_steps()
    ensures initial { (P : Program) (cfa : Cfa) → IsAutomatonOf P cfa
        → initial_state cfa ≡ initial_of P }
    ensures state { (cfa : Cfa) → IsAutomaton cfa → IsStateOf cfa (initial_state cfa) }
    ensures steps { (P : Program) (cfa : Cfa) (s t : State) → IsAutomatonOf P cfa
        → Step P s t ↔ EdgeStep cfa s t }
{}

/// A law: an edge of an automaton names points, call sites and cells that are there, and its
/// expressions are well typed over the cells.
pub fn edges_are_sound()
    ensures { (cfa : Cfa) (n : ℕ) (edge : Edge) → IsAutomaton cfa
        → slice_get cfa.edges n ≡ Some edge → IsEdgeOf cfa edge }
{}

/// A law: the numbers of an automaton's edges and points are within `u32`, and what it names is
/// there.
pub fn automata_are_small()
    ensures edges { (cfa : Cfa) → IsAutomaton cfa → length cfa.edges < 2 ^ 32 }
    ensures start { (cfa : Cfa) → IsAutomaton cfa → cfa.start < cfa.points }
    ensures errors { (cfa : Cfa) → IsAutomaton cfa
        → AllByRecursion (λ p. p < cfa.points) cfa.errors }
{}

/// A law: the covers of an automaton are those of its program, and a program with a cover is safe.
pub fn covers_are_safe()
    ensures agree { (P : Program) (cfa : Cfa) (entries : List (List Elem)) → IsAutomatonOf P cfa
        → CoversAutomaton cfa entries ↔ IsCover P entries }
    ensures safe { (P : Program) (entries : List (List Elem)) → IsWellFormed P
        → IsCover P entries → IsSafe P entries }
{}
