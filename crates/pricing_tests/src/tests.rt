// Sheets with their states, prices and priced texts.
use measures::price::Price;
use offers::span::{Span, State};
use offers::states::zone_state;
use price_history::empty::EmptyHistory;
use price_history::history::PriceHistory;
use price_history_tests::daily::Daily;
use priced_text::pricing_text::price_text;
use priced_text::refusal::PricingRefusal;
use priced_text::refusal_line::write_refusal;
use sheet_text::reading::read;
use std::process::Abort;
use std::test::Fail;

pub(crate) const SUBSTITUTED: &[u8] =
    b"PERIOD 1 1 1\nDAM 100 kop/MWh\nFORCED 0 kWh H\nOFFERS 2\n1 U 7 1000 kWh 900 kop/MWh C\n2 U 7 1000 kWh 200 kop/MWh -\nUNITS 1\n7 U 2000 kWh\nGROUPS 0\nEND\n";

// What is printed of it at the day-ahead price.
pub(crate) const AT_DAY_AHEAD: &[u8] =
    b"DEFICIT\nIMSP 150 kop/MWh\nUP 150 kop/MWh\nDOWN 100 kop/MWh\nUNITS 1\n7 300000 mkop\nA-A -300000 mkop\nGROUPS 0\nA-B 0 mkop\nEND\n";

fn state_of(text: &[u8], span: Span) -> Option<State> {
    let report = read(text).ok()?;
    Some(zone_state(&report.sheet, span))
}

// Prices the text, and compares what is written and what is beyond it.
pub(crate) fn prices_as<H: PriceHistory>(
    rt: &impl Abort,
    history: &H,
    text: &[u8],
    expected: &[u8],
) -> Result<(), Fail> {
    let mut out = [b'.'; 1024];
    let length = price_text(history, text, &mut out).map_err(|_| Fail::new("the text is refused"))?;
    assert_eq!(rt; length, expected.len());
    assert!(rt; length < 1024);
    assert!(rt; &out[0..length] == expected);
    assert_eq!(rt; out[length], b'.');
    Ok(())
}

#[test]
fn forced_reduction_is_of_the_whole_period(rt: HostRuntime) {
    let text =
        b"PERIOD 1 1 1\nDAM 1 kop/MWh\nFORCED 1200 kWh H\nOFFERS 2\n1 U 1 2000 kWh 1 kop/MWh -\n1 D 1 2500 kWh 1 kop/MWh -\nUNITS 0\nGROUPS 0\nEND\n";
    assert_eq!(rt; state_of(text, Span::Quarter(1)), Some(State::Surplus));
    assert_eq!(rt; state_of(text, Span::Quarter(2)), Some(State::Deficit));
    assert_eq!(rt; state_of(text, Span::Period), Some(State::Deficit));
}

#[test]
fn a_surplus_is_priced(rt: HostRuntime) -> Result<(), Fail> {
    prices_as(
        &rt,
        &EmptyHistory,
        b"PERIOD 2 31 24\nDAM -120 kop/MWh\nFORCED 100 kWh H\nOFFERS 4\n1 D 12 900 kWh 310 kop/MWh -\n1 D 13 100 kWh 300 kop/MWh C\n2 U 14 200 kWh 500 kop/MWh -\n4 D 15 301 kWh -7 kop/MWh C\nUNITS 3\n12 D 900 kWh\n13 D 0 kWh\n14 U 200 kWh\nGROUPS 1\n64 - 1 kWh\nEND\n",
        b"SURPLUS\nIMSP 203 kop/MWh\nUP 500 kop/MWh\nDOWN 203 kop/MWh\nUNITS 3\n12 -182700 mkop\n13 0 mkop\n14 100000 mkop\nA-A 82700 mkop\nGROUPS 1\n64 -203 mkop\nA-B 203 mkop\nEND\n",
    )
}

#[test]
fn a_balance_is_priced_at_the_limits(rt: HostRuntime) -> Result<(), Fail> {
    prices_as(
        &rt,
        &EmptyHistory,
        b"PERIOD 1 1 1\nDAM -10000000 kop/MWh\nFORCED 0 kWh H\nOFFERS 0\nUNITS 1\n999 D 1000000 kWh\nGROUPS 2\n1 + 0 kWh\n64 - 1000000 kWh\nEND\n",
        b"BALANCED\nIMSP -10000000 kop/MWh\nUP -10000000 kop/MWh\nDOWN -10000000 kop/MWh\nUNITS 1\n999 10000000000000 mkop\nA-A -10000000000000 mkop\nGROUPS 2\n1 0 mkop\n64 10000000000000 mkop\nA-B -10000000000000 mkop\nEND\n",
    )
}

#[test]
fn a_constrained_quarter_takes_the_substitute(rt: HostRuntime) -> Result<(), Fail> {
    let mut history = Daily {
        prices: [None; 121],
    };
    history.prices[89] = Price::new(-3);
    history.prices[88] = Price::new(-4);
    prices_as(
        &rt,
        &history,
        SUBSTITUTED,
        b"DEFICIT\nIMSP 98 kop/MWh\nUP 98 kop/MWh\nDOWN 100 kop/MWh\nUNITS 1\n7 196000 mkop\nA-A -196000 mkop\nGROUPS 0\nA-B 0 mkop\nEND\n",
    )
}

#[test]
fn without_a_history_it_takes_the_day_ahead_price(rt: HostRuntime) -> Result<(), Fail> {
    prices_as(&rt, &EmptyHistory, SUBSTITUTED, AT_DAY_AHEAD)
}

#[test]
fn output_may_be_just_long_enough(rt: HostRuntime) {
    let mut out = [b'.'; 120];
    assert!(rt; price_text(&EmptyHistory, SUBSTITUTED, &mut out).is_ok());
    let mut short = [b'.'; 119];
    let refused = price_text(&EmptyHistory, SUBSTITUTED, &mut short);
    assert!(rt; matches!(refused, Err(PricingRefusal::OutputShort)));
    assert!(rt; short == [b'.'; 119]);
}

#[test]
fn a_fault_is_told_in_a_line(rt: HostRuntime) -> Result<(), Fail> {
    let mut out = [b'.'; 30];
    let text =
        b"PERIOD 1 3 17\nDAM 350000 kop/MWh\nFORCED 1200 kWh H\nOFFERS 2\n1 U 7 2000 kWh 400000 kop/MWh -\n1 D 4 1000001 kWh 300000 kop/MWh C\n";
    let Err(PricingRefusal::Text(fault)) = price_text(&EmptyHistory, text, &mut out) else {
        return Err(Fail::new("the text is not refused"));
    };
    assert!(rt; out == [b'.'; 30]);
    assert!(rt; write_refusal(fault, &mut out).is_ok());
    assert!(rt; &out[0..22] == &b"REFUSED 2 6 4 OFFERS\n."[..]);
    Ok(())
}
