//! Laws of product texts and of the printed form. Each function's contract is a law; nothing calls them.

ghost use Rattle.std.specs.Prelude.{◌≡◌, ◌↔◌, ℕ, true, List, None};
ghost use Rattle.pc_file.specs.Limits.{Contents, IsFile};
ghost use Rattle.pc_file.specs.PrintedForm.{printed};
ghost use Rattle.pc_text.specs.FirstFault.{first_fault, given_by};
ghost use Rattle.pc_text.specs.Given.{contents_given};
ghost use Rattle.pc_text.specs.Named.{has_names};
ghost use Rattle.pc_text.specs.Spells.{Spells};

/// A text spells one file at most.
#[tactic(auto, using(crate::proofs::ReadLemmas::spelled_once))]
pub fn text_tells_file()
    ensures { (text : List ℕ) (file other : Contents) → Spells text file → Spells text other → file ≡ other }
{}

/// A text has no fault exactly where it spells a file, and the file is what its lines give.
pub fn faultless_text_spells_file()
    ensures spells { (text : List ℕ) → (first_fault text ≡ None) ↔ ((file : Contents) × Spells text file) }
    ensures file { (text : List ℕ) (file : Contents) → Spells text file ↔ ((first_fault text ≡ None) × (contents_given (given_by text) ≡ file)) }
{}

/// The printed form of a file spells the file: it has no fault, what it gives is the file, and no other file has it.
#[tactic(auto, using(crate::proofs::PrintedSpells::printed_spells, crate::proofs::PrintedSpells::printed_once))]
pub fn printed_form_spells_file()
    ensures spells { (file : Contents) → IsFile file → has_names file ≡ true → Spells (printed file) file }
    ensures read { (file : Contents) → IsFile file → has_names file ≡ true
        → (first_fault (printed file) ≡ None) × (contents_given (given_by (printed file)) ≡ file) }
    ensures once { (file other : Contents) → IsFile file → IsFile other → has_names file ≡ true → has_names other ≡ true
        → printed file ≡ printed other → file ≡ other }
{}
