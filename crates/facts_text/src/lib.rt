// What the program `facts` writes of a file: the listing of its last operator, or the refusal.
#![tactic(auto)]

ghost use Rattle.std.specs.Prelude.{◌≡◌};
ghost use Rattle.plan_file.specs.Steps.{read_of};
ghost use Rattle.writing.specs.Writers.{written};
ghost use Rattle.facts_text.specs.FactsText.{facts_text};

use writing::Writer;

// The text for the bytes of a file.
#[tactic(auto, using(crate::proofs::Texts::texts))]
pub fn facts_text(w: &mut Writer, file: &[u8])
    ensures { w.new ≡ written w.old (facts_text (read_of file.now)) }
{
    match &file_facts::of_last(file) {
        Ok(known) => listing::listing(
            w,
            usize::from(known.operator),
            &known.identities,
            &known.facts,
        ),
        Err(refusal) => listing::refused(w, usize::from(refusal.number), refusal.place),
    }
}
