//! Laws of the definitions. Each function's contract is a law; nothing calls them.

ghost use Rattle.std.specs.Prelude.{◌≡◌, ◌⊎◌, ◌++◌, ℕ, List, [], ◌∷◌};
ghost use Rattle.pc_diagram.specs.BikeDiagram.{bike_diagram};
ghost use Rattle.pc_diagram.specs.declared.raw_diagram.RawDiagram.{RawDiagram};
ghost use Rattle.pc_dump.specs.Bike.{bike_text};
ghost use Rattle.pc_dump.specs.Dump.{Words, dump_text, dump_words};
ghost use Rattle.pc_dump.specs.Form.{AreTables, IsFirstMisfit, cut_lines};

/// No two tables have the same lines, so the lines of a text are those of one diagram's tables at most.
pub fn lines_tell_tables()
    ensures { (a b : RawDiagram) → AreTables a → AreTables b → dump_words a ≡ dump_words b → a ≡ b }
{}

/// Lines go wrong at one line at most, and those of tables at none.
pub fn lines_go_wrong_once()
    ensures once { (all : List Words) (m n : ℕ) → IsFirstMisfit m all → IsFirstMisfit n all → m ≡ n }
    ensures never { (raw : RawDiagram) (n : ℕ) → AreTables raw → IsFirstMisfit n (dump_words raw) → ⊥ }
{}

/// The lines of a diagram's text are the lines of its tables; and a text with these lines is that text, or lacks its
/// last line feed alone.
pub fn lines_tell_text()
    ensures cut { (raw : RawDiagram) → AreTables raw → cut_lines (dump_text raw) ≡ dump_words raw }
    ensures told { (raw : RawDiagram) (text : List ℕ) → cut_lines text ≡ dump_words raw
        → (text ≡ dump_text raw) ⊎ (text ++ 10 ∷ [] ≡ dump_text raw) }
{}

/// The definition on a worked example: the diagram of the bikes.
pub fn bikes_have_this_text()
    ensures { dump_text bike_diagram ≡ bike_text }
{}
