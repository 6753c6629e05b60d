// A worked example: what is given, and what comes of it.
use rows::DispatchType;
use sharing::SharingFault;

#[derive(Clone, Copy)]
pub enum Rule {
    LargestRemainder,
    Running,
}

#[derive(Clone, Copy)]
pub enum Example {
    // products, and the cents that they round to
    Rounding {
        products: i64,
        cents: i64,
    },
    // energy of a plain resource at a price
    Imbalance {
        lmp: i64,
        iie: i64,
        cents: i64,
    },
    // an exceptional dispatch of a plain resource
    Dispatch {
        kind: DispatchType,
        lmp: i64,
        edprice: i64,
        edqty: i64,
        cents: i64,
    },
    // the pool of an area that is opted in
    Surcharge {
        failed: i64,
        transferred: i64,
        credit: i64,
        cap: i64,
        cents: i64,
    },
    // a pool shared by weights
    Shared {
        rule: Rule,
        pool: i64,
        weights: &'static [u32],
        shares: &'static [i64],
    },
    // a pool that every rule refuses, with the number of the refusal
    Refused {
        pool: i64,
        weights: &'static [u32],
        fault: SharingFault,
        number: u8,
    },
    // a dynamic tie whose two first intervals have tags of the same kw, the second curtailed or not, and no telemetry there
    Deemed {
        kw: i64,
        telemetry: i64,
        curtailed: bool,
        energies: [i64; 2],
    },
}
