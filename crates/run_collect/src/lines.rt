ghost use Rattle.std.specs.Prelude.{◌≡◌, ◌++◌, codes, decimal, OnErr, OnOk};
ghost use Rattle.std.specs.Io.KnownBytes.{append_known};
ghost use Rattle.afl_base.specs.Causes.{HasCause, Rose};
ghost use Rattle.run_collect.specs.Collects.{IsCollectStatus, erased_line};
ghost use Rattle.run_collect.specs.Comes.{IsCollectionSaid, collection_lines, collection_status};
ghost use Rattle.run_collect.specs.declared.came.Came.TheVariants.{Failed as FaultOfFlash};
ghost use Rattle.reply_text.specs.WroteLess.{WroteLess};

use crate::came::Came;
use afl_base::{Failed, Sink};
use reply_text::{write_all, write_count};
use run_entries::write_image_line;

/// Says what a collection came to, and answers the status.
pub fn say<K: Sink>(out: &mut K, came: Came) -> u8
    ensures says { IsCollectionSaid result came (K.held out.old) (K.held out.new) }
    ensures only { IsCollectStatus result }
    ensures fault { result ≡ 4 → came ≡ FaultOfFlash }
    ensures rose { result ≡ 5 → Rose (K.faults out.old) (K.faults out.new) }
    ensures lent { K.lent out.new ≡ K.lent out.old }
{
    match write_came(out, came) {
        Ok(()) => status(came),
        Err(Failed) => 5,
    }
}

fn write_came<K: Sink>(out: &mut K, came: Came) -> Result<(), Failed>
    ensures written { OnOk result (K.held out.new ≡ append_known (K.held out.old) (collection_lines came)) }
    ensures failed { OnErr result (WroteLess (K.held out.old) (K.held out.new) (collection_lines came)) }
    ensures lent { K.lent out.new ≡ K.lent out.old }
    ensures cause { HasCause (K.faults out.old) (K.faults out.new) result }
{
    match came {
        Came::Collected { erased } => write_erased(out, u64::from(erased)),
        Came::Refused(bad) => write_image_line(out, bad.rule, bad.place),
        Came::Failed => Ok(()),
    }
}

// The line of the erased sectors.
fn write_erased<K: Sink>(out: &mut K, erased: u64) -> Result<(), Failed>
    ensures written { OnOk result (K.held out.new ≡ append_known (K.held out.old) (erased_line erased)) }
    ensures failed { OnErr result (WroteLess (K.held out.old) (K.held out.new) (erased_line erased)) }
    ensures lent { K.lent out.new ≡ K.lent out.old }
    ensures cause { HasCause (K.faults out.old) (K.faults out.new) result }
{
    write_count(out, b"sectors erased ", erased)?;
    write_all(out, b"\n")?;
    Ok(())
}

fn status(came: Came) -> u8
    ensures { result ≡ collection_status came }
{
    match came {
        Came::Collected { erased: _ } => 0,
        Came::Refused(_) => 6,
        Came::Failed => 4,
    }
}
