// Texts of sheets at their limits.
use std::alloc::{AllocError, Global};

// The figures of a full sheet, each for all of its entries, and the first unit and the first party.
#[derive(Clone, Copy)]
pub struct Figures {
    pub head: &'static str,
    pub offer: &'static str,
    pub unit: u16,
    pub energy: &'static str,
    pub party: u16,
    pub imbalance: &'static str,
}

pub const LOWEST: Figures = Figures {
    head: "PERIOD 1 1 1\nDAM -10000000 kop/MWh\nFORCED 0 kWh H\n",
    offer: "1 U 1 1 kWh -10000000 kop/MWh C\n",
    unit: 1,
    energy: "U 0",
    party: 1,
    imbalance: "+ 0",
};

pub const HIGHEST: Figures = Figures {
    head: "PERIOD 2 31 24\nDAM 10000000 kop/MWh\nFORCED 10000000 kWh H\n",
    offer: "4 D 999 1000000 kWh 10000000 kop/MWh -\n",
    unit: 984,
    energy: "D 1000000",
    party: 49,
    imbalance: "- 1000000",
};

pub const LENGTHY: Figures = Figures {
    head: "PERIOD 1 10 10\nDAM -10000000 kop/MWh\nFORCED 10000000 kWh H\n",
    offer: "1 D 100 1000000 kWh -10000000 kop/MWh C\n",
    unit: 100,
    energy: "U 1000000",
    party: 10,
    imbalance: "+ 1000000",
};

fn push_sixteen(text: &mut String, first: u16, figure: &str) -> Result<(), AllocError> {
    for number in first..first.saturating_add(16) {
        writeln!(text, "{number} {figure} kWh")?;
    }
    Ok(())
}

// A sheet with as many entries as there may be.
pub(crate) fn full(heap: Global, figures: Figures) -> Result<String, AllocError> {
    let mut text = String::from_str(heap, figures.head)?;
    text.push_str("OFFERS 24\n")?;
    for _ in 0..24 {
        text.push_str(figures.offer)?;
    }
    text.push_str("UNITS 16\n")?;
    push_sixteen(&mut text, figures.unit, figures.energy)?;
    text.push_str("GROUPS 16\n")?;
    push_sixteen(&mut text, figures.party, figures.imbalance)?;
    text.push_str("END\n")?;
    Ok(text)
}
