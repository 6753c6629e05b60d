// Works examples out by the code, and prints what is given and what it gives.
use super::example::{Example, Rule};
use anyhow::Context;
use deemed::{INTERVALS, Kilowatts, Tag, TelemetrySteps, TieHour, Units, pool, weights};
use formulas::{Products, Terms, imbalance_products, surcharge_pool};
use rows::{
    DeemedEnergy, DispatchType, DispatchWord, ElectionPost, EnergyPost, PriceSteps, ResourceKind,
    TagPost, TestPost, TransferPost,
};
use sharing::{LargestRemainder, Running, SharingRule};
use std::io::{self, Write};
use tables::Reason;

// A resource that is a plain one, neither net nor exempt.
const PLAIN: Terms = Terms {
    kind: ResourceKind::Plain,
    net: false,
    exempt: false,
};

// What a post gives, which is refused where a figure is outside its values.
fn made<T>(read: Result<T, Reason>) -> anyhow::Result<T> {
    read.ok().context("a figure outside its values")
}

// The cents of a plain resource.
fn imbalance_cents(post: EnergyPost) -> anyhow::Result<i64> {
    let energy = made(post.read())?;
    Ok(
        imbalance_products(PLAIN, &energy, DeemedEnergy::zero())
            .to_cents()
            .0,
    )
}

fn print_imbalance(out: &mut impl Write, lmp: i64, iie: i64) -> anyhow::Result<()> {
    let cents = imbalance_cents(EnergyPost {
        lmp: PriceSteps(lmp),
        iie: Units(iie),
        ..EnergyPost::default()
    })?;
    writeln!(out, "energy lmp {lmp} iie {iie}; cents {cents}")?;
    Ok(())
}

fn print_dispatch(
    out: &mut impl Write,
    kind: DispatchType,
    lmp: i64,
    edprice: i64,
    edqty: i64,
) -> anyhow::Result<()> {
    let cents = imbalance_cents(EnergyPost {
        lmp: PriceSteps(lmp),
        edprice: PriceSteps(edprice),
        edqty: Units(edqty),
        ed: DispatchWord::Named(kind),
        ..EnergyPost::default()
    })?;
    write!(out, "energy lmp {lmp} edprice {edprice} edqty {edqty} ed ")?;
    out.write_all(kind.name())?;
    writeln!(out, "; cents {cents}")?;
    Ok(())
}

fn print_surcharge(
    out: &mut impl Write,
    failed: i64,
    transferred: i64,
    credit: i64,
    cap: i64,
) -> anyhow::Result<()> {
    let election = made(ElectionPost {
        opted_in: 1,
        cap: PriceSteps(cap),
        up: Kilowatts(credit),
        nopay: Kilowatts(0),
    }
    .read())?;
    let test = made(TestPost {
        capacity: Kilowatts(failed),
        ..TestPost::default()
    }
    .read())?;
    let transfer = made(TransferPost {
        to: Units(transferred),
        ..TransferPost::default()
    }
    .read())?;
    let cents = surcharge_pool(&election, &test, &transfer).0;
    writeln!(
        out,
        "surcharge F {failed} T {transferred} credit {credit} cap {cap}; cents {cents}"
    )?;
    Ok(())
}

// Shares a pool by a rule, and prints the shares or the number of the refusal.
fn print_shares<R: SharingRule>(
    out: &mut impl Write,
    name: &str,
    rule: &R,
    pool: i64,
    weights: &[u32],
) -> io::Result<()> {
    write!(out, "{name} pool {pool} weights")?;
    for weight in weights {
        write!(out, " {weight}")?;
    }
    match rule.share(pool, weights) {
        Ok(shares) => {
            write!(out, "; shares")?;
            for share in shares.as_slice() {
                write!(out, " {share}")?;
            }
        }
        Err(fault) => write!(out, "; refused {}", fault.number())?,
    }
    writeln!(out)
}

fn print_shared(out: &mut impl Write, rule: Rule, pool: i64, weights: &[u32]) -> io::Result<()> {
    match rule {
        Rule::LargestRemainder => {
            print_shares(out, "largest remainder", &LargestRemainder, pool, weights)
        }
        Rule::Running => print_shares(out, "running", &Running, pool, weights),
    }
}

// The tags of a tie whose two first intervals have the same kw.
fn two_tags(kw: i64, telemetry: i64, curtailed: bool) -> anyhow::Result<[Tag; INTERVALS]> {
    let mut tags = [Tag::none(); INTERVALS];
    tags[0] = made(TagPost {
        kw: Kilowatts(kw),
        telemetry: TelemetrySteps(telemetry),
        curtailed: 0,
    }
    .read())?;
    tags[1] = made(TagPost {
        kw: Kilowatts(kw),
        telemetry: TelemetrySteps(0),
        curtailed: i64::from(curtailed),
    }
    .read())?;
    Ok(tags)
}

// The deemed energies of the two first intervals, by a rule.
fn print_energies<R: SharingRule>(
    out: &mut impl Write,
    name: &str,
    rule: &R,
    tags: [Tag; INTERVALS],
) -> anyhow::Result<()> {
    let mut hour = TieHour::new(weights(tags));
    hour.share(rule, pool(tags))
        .ok()
        .context("no interval weighs")?;
    let [first, second, ..] = hour.units();
    writeln!(out, " {name} {} {}", first.0, second.0)?;
    Ok(())
}

fn print_deemed(
    out: &mut impl Write,
    kw: i64,
    telemetry: i64,
    curtailed: bool,
) -> anyhow::Result<()> {
    let tags = two_tags(kw, telemetry, curtailed)?;
    let flag = u8::from(curtailed);
    writeln!(
        out,
        "tags kw {kw} {kw} telemetry {telemetry} 0 curtailed 0 {flag}; units"
    )?;
    print_energies(out, "largest remainder", &LargestRemainder, tags)?;
    print_energies(out, "running", &Running, tags)
}

pub(super) fn print_outcome(out: &mut impl Write, example: Example) -> anyhow::Result<()> {
    match example {
        Example::Rounding { products, .. } => {
            writeln!(
                out,
                "products {products}; cents {}",
                Products(products).to_cents().0
            )?;
        }
        Example::Imbalance { lmp, iie, .. } => print_imbalance(out, lmp, iie)?,
        Example::Dispatch {
            kind,
            lmp,
            edprice,
            edqty,
            ..
        } => print_dispatch(out, kind, lmp, edprice, edqty)?,
        Example::Surcharge {
            failed,
            transferred,
            credit,
            cap,
            ..
        } => print_surcharge(out, failed, transferred, credit, cap)?,
        Example::Shared {
            rule,
            pool,
            weights,
            ..
        } => print_shared(out, rule, pool, weights)?,
        Example::Refused { pool, weights, .. } => {
            print_shared(out, Rule::LargestRemainder, pool, weights)?;
            print_shared(out, Rule::Running, pool, weights)?;
        }
        Example::Deemed {
            kw,
            telemetry,
            curtailed,
            ..
        } => print_deemed(out, kw, telemetry, curtailed)?,
    }
    Ok(())
}
