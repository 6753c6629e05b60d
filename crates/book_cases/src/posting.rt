// Posts what a line says.
use super::{WORDS, word_bytes};
use anyhow::bail;
use deemed::{Kilowatts, TelemetrySteps, Units};
use rows::{
    Cents, DispatchWord, ElectionPost, EnergyPost, PriceSteps, TagPost, TestPost, TransferPost,
};
use statement::Book;
use tables::Refusal;

// What the word of a type says. A line shows no word as a dot.
fn dispatch_word(word: &str) -> DispatchWord {
    DispatchWord::of((word != ".").then_some(word_bytes(word)))
}

pub(super) fn energy_post(words: [&str; WORDS]) -> anyhow::Result<EnergyPost> {
    let [
        _name,
        _id,
        _interval,
        lmp,
        mss,
        resprice,
        edprice,
        iie,
        oa,
        mssiie,
        res,
        above,
        edqty,
        resflag,
        ed,
        ..
    ] = words;
    Ok(EnergyPost {
        lmp: PriceSteps(lmp.parse()?),
        mss: PriceSteps(mss.parse()?),
        resprice: PriceSteps(resprice.parse()?),
        edprice: PriceSteps(edprice.parse()?),
        iie: Units(iie.parse()?),
        oa: Units(oa.parse()?),
        mssiie: Units(mssiie.parse()?),
        res: Units(res.parse()?),
        above: Units(above.parse()?),
        edqty: Units(edqty.parse()?),
        resflag: resflag.parse()?,
        ed: dispatch_word(ed),
    })
}

fn tag_post(kw: &str, telemetry: &str, curtailed: &str) -> anyhow::Result<TagPost> {
    Ok(TagPost {
        kw: Kilowatts(kw.parse()?),
        telemetry: TelemetrySteps(telemetry.parse()?),
        curtailed: curtailed.parse()?,
    })
}

fn election_post(opted_in: &str, cap: &str, up: &str, nopay: &str) -> anyhow::Result<ElectionPost> {
    Ok(ElectionPost {
        opted_in: opted_in.parse()?,
        cap: PriceSteps(cap.parse()?),
        up: Kilowatts(up.parse()?),
        nopay: Kilowatts(nopay.parse()?),
    })
}

fn test_post(capacity: &str, ramp: &str, nopay: &str) -> anyhow::Result<TestPost> {
    Ok(TestPost {
        capacity: Kilowatts(capacity.parse()?),
        ramp: Kilowatts(ramp.parse()?),
        nopay: Kilowatts(nopay.parse()?),
    })
}

fn transfer_post(
    to: &str,
    base_to: &str,
    from: &str,
    base_from: &str,
) -> anyhow::Result<TransferPost> {
    Ok(TransferPost {
        to: Units(to.parse()?),
        base_to: Units(base_to.parse()?),
        from: Units(from.parse()?),
        base_from: Units(base_from.parse()?),
    })
}

// Makes a posting call, and gives what came of it.
pub(super) fn post(book: &mut Book, words: [&str; WORDS]) -> anyhow::Result<Result<(), Refusal>> {
    Ok(match words {
        ["energy", id, interval, ..] => {
            book.post_energy(id.parse()?, interval.parse()?, energy_post(words)?)
        }
        ["tag", id, interval, kw, telemetry, curtailed, ..] => {
            let post = tag_post(kw, telemetry, curtailed)?;
            book.post_tag(id.parse()?, interval.parse()?, post)
        }
        ["election", id, opted_in, cap, up, nopay, ..] => {
            book.post_election(id.parse()?, election_post(opted_in, cap, up, nopay)?)
        }
        ["test", id, quarter, capacity, ramp, nopay, ..] => {
            let post = test_post(capacity, ramp, nopay)?;
            book.post_test(id.parse()?, quarter.parse()?, post)
        }
        ["transfer", id, interval, to, base_to, from, base_from, ..] => {
            let post = transfer_post(to, base_to, from, base_from)?;
            book.post_transfer(id.parse()?, interval.parse()?, post)
        }
        ["demand", id, interval, units, ..] => {
            book.post_demand(id.parse()?, interval.parse()?, Units(units.parse()?))
        }
        ["given", id, interval, code, cents, ..] => {
            book.post_given(
                id.parse()?,
                interval.parse()?,
                code.parse()?,
                Cents(cents.parse()?),
            )
        }
        _ => bail!("no such call"),
    })
}
