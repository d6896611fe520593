//! The scripts of a sample: a hub, and workers each of which adds its number to the hub's total a thousand times.
ghost use Rattle.std.specs.Prelude.{◌≡◌, IfOk, map};
ghost use Rattle.std.specs.String.{string_bytes};
ghost use Rattle.command_files.specs.SourceTexts.{text_of};
ghost use Rattle.run_commands.specs.Sample.{hub_text, sample_texts, worker_text};

use command_files::NamedText;
use papy_base::{Made, Text};
use std::alloc::Global;

const HUB: &[u8] = b"ScriptName Hub
Int Property Total Auto
Function Add(Int n)
    Total += n
EndFunction
";

fn hub(alloc: Global) -> Made<NamedText>
    ensures { IfOk result (λ script. text_of script ≡ hub_text) }
{
    Ok(NamedText {
        name: Text::try_from_bytes(alloc, b"Hub.psc")?,
        text: HUB.to_vec(alloc)?,
    })
}

fn worker_text(alloc: Global, number: u8) -> Made<String>
    ensures { IfOk result (λ text. string_bytes text ≡ worker_text number) }
{
    Ok(format!(in alloc;
        "ScriptName W{number}
Hub Property Target Auto
Event OnInit()
    Int i = 0
    While i < 1000
        Target.Add({number})
        i += 1
    EndWhile
EndEvent
"
    )?)
}

fn worker(alloc: Global, number: u8) -> Made<NamedText>
    ensures { IfOk result (λ script. text_of script ≡ worker_text number) }
{
    let name = format!(in alloc; "W{number}.psc")?;
    let text = worker_text(alloc, number)?;
    Ok(NamedText {
        name: Text::try_from_bytes(alloc, name.as_bytes())?,
        text: text.as_bytes().to_vec(alloc)?,
    })
}

/// The hub's script, and those of so many workers, whose numbers run from 0 on.
pub fn sample_scripts(alloc: Global, workers: u8) -> Made<Vec<NamedText>>
    ensures { IfOk result (λ scripts. map text_of scripts.items ≡ sample_texts workers) }
{
    let mut scripts = Vec::new(alloc);
    scripts.push(hub(alloc)?)?;
    for number in 0..workers {
        scripts.push(worker(alloc, number)?)?;
    }
    Ok(scripts)
}
