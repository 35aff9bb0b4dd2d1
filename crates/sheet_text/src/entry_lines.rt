// Offers, units and groups, line by line.
ghost use Rattle.sheet_text.specs.Lines.{four, eight, offer_line, unit_line, group_line};
ghost use Rattle.sheet_text.specs.Usual.{four_usual, eight_usual};

use crate::entry::Entry;
use crate::faults::{FaultKind, LineFault};
use crate::fields::Fields;
use crate::lines::need_word;
use crate::values::{
    constraint_of, direction_of, imbalance_of, position_of, price_of, small_number, volume_of,
};
use measures::price::Price;
use measures::volume::Volume;
use sheet::lines::{Direction, GroupLine, Offer, Position, UnitLine};

const QUARTERS: u16 = 4;

const MOST_UNIT: u16 = 999;

const MOST_PARTY: u16 = 64;

// `quarter U|D unit volume kWh price kop/MWh C|-`
impl Entry for Offer {
    ghost says = { λ _. eight offer_line };

    ghost order = { λ _. 0 };

    ghost counts = { λ _. eight_usual offer_line };

    fn of_fields(_before: u16, line: u32, fields: Fields<'_>) -> Result<Offer, LineFault> {
        let Fields::Eight(quarter, direction, unit, volume, kwh, price, kop, constrained) = fields
        else {
            return Err(FaultKind::Layout.at(line, 0));
        };
        let quarter = small_number(quarter, 1, QUARTERS).ok_or(FaultKind::Number.at(line, 1))?;
        let direction = direction_of(direction).ok_or(FaultKind::Layout.at(line, 2))?;
        let unit = small_number(unit, 1, MOST_UNIT).ok_or(FaultKind::Number.at(line, 3))?;
        let volume = volume_of(volume, 1).ok_or(FaultKind::Number.at(line, 4))?;
        need_word(kwh, b"kWh", FaultKind::Unit.at(line, 5))?;
        let price = price_of(price).ok_or(FaultKind::Number.at(line, 6))?;
        need_word(kop, b"kop/MWh", FaultKind::Unit.at(line, 7))?;
        let constrained = constraint_of(constrained).ok_or(FaultKind::Layout.at(line, 8))?;
        Ok(Offer {
            quarter,
            direction,
            unit,
            volume,
            price,
            constrained,
        })
    }

    fn number(&self) -> u16 {
        0
    }
}

// `unit U|D energy kWh`
impl Entry for UnitLine {
    ghost says = { λ before. four (unit_line before) };

    ghost order = { λ x. x.unit };

    ghost counts = { λ before. four_usual (unit_line before) };

    fn of_fields(before: u16, line: u32, fields: Fields<'_>) -> Result<UnitLine, LineFault> {
        let Fields::Four(unit, direction, energy, kwh) = fields else {
            return Err(FaultKind::Layout.at(line, 0));
        };
        let unit = small_number(unit, 1, MOST_UNIT).ok_or(FaultKind::Number.at(line, 1))?;
        let direction = direction_of(direction).ok_or(FaultKind::Layout.at(line, 2))?;
        let energy = volume_of(energy, 0).ok_or(FaultKind::Number.at(line, 3))?;
        need_word(kwh, b"kWh", FaultKind::Unit.at(line, 4))?;
        if unit <= before {
            return Err(FaultKind::Order.at(line, 1));
        }
        Ok(UnitLine {
            unit,
            direction,
            energy,
        })
    }

    fn number(&self) -> u16 {
        self.unit
    }
}

// `party +|- imbalance kWh`
impl Entry for GroupLine {
    ghost says = { λ before. four (group_line before) };

    ghost order = { λ x. x.party };

    ghost counts = { λ before. four_usual (group_line before) };

    fn of_fields(before: u16, line: u32, fields: Fields<'_>) -> Result<GroupLine, LineFault> {
        let Fields::Four(party, position, imbalance, kwh) = fields else {
            return Err(FaultKind::Layout.at(line, 0));
        };
        let party = small_number(party, 1, MOST_PARTY).ok_or(FaultKind::Number.at(line, 1))?;
        let position = position_of(position).ok_or(FaultKind::Layout.at(line, 2))?;
        let imbalance = imbalance_of(imbalance, position).ok_or(FaultKind::Number.at(line, 3))?;
        need_word(kwh, b"kWh", FaultKind::Unit.at(line, 4))?;
        if party <= before {
            return Err(FaultKind::Order.at(line, 1));
        }
        Ok(GroupLine {
            party,
            position,
            imbalance,
        })
    }

    fn number(&self) -> u16 {
        self.party
    }
}
