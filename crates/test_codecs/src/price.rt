//! The first type of docs/TYPES.md, through packed bytes and DER.
use asn1_bench::BenchRules;
use asn1_der::DerRules;
use asn1_schema::{Rules, round_trip};
use asn1_user_types::{Currency, Price};

#[test]
fn a_price_comes_back(rt: HostRuntime) {
    let price = Price {
        amount: 30,
        currency: Currency::Yen,
    };
    let packed = BenchRules::new(rt.alloc());
    let back = round_trip(&packed, &price, 1, 1).expect(&rt, "packed bytes");
    assert!(rt; back == price);
    let der = DerRules::new(rt.alloc());
    let bytes = der.write_value(&price, 1).expect(&rt, "DER");
    assert_eq!(rt; bytes.as_slice(), [0x30, 6, 2, 1, 30, 10, 1, 1].as_slice());
    let back: Price = der.read_value(&bytes, 1).expect(&rt, "a price");
    assert!(rt; back == price);
}
