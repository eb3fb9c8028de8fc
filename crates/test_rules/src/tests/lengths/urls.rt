//! Tests of the lengths of a URL.
use super::texts::counts;
use crate::tests::OrEnd;
use url::Url;

#[test]
fn counts_the_serialised_text_of_a_url(rt: HostRuntime) {
    let url = Url::parse(rt.alloc(), "HTTPS://é.example").or_end(&rt);
    assert!(rt; url.as_str() == "https://xn--9ca.example/" && counts(&url) == [24; 5]);
}
