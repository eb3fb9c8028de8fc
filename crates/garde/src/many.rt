//! More than six in turn: tuples in tuples.

/// Any number of fields, checks, rules or members in turn. A tuple has at most six of them: of more, the
/// last item of a tuple is a tuple of the others, as `(a, b, c, d, e, (f, g))`.
#[macro_export]
macro_rules! all {
    ($a:expr, $b:expr, $c:expr, $d:expr, $e:expr, $f:expr, $($rest:expr),+ $(,)?) => {
        ($a, $b, $c, $d, $e, $crate::all!($f, $($rest),+))
    };
    ($($few:expr),+ $(,)?) => {
        ($($few),+)
    };
}

/// The pattern of the values that a form reads by the members of an `all!`.
#[macro_export]
macro_rules! parts {
    ($a:pat, $b:pat, $c:pat, $d:pat, $e:pat, $f:pat, $($rest:pat),+ $(,)?) => {
        ($a, $b, $c, $d, $e, $crate::parts!($f, $($rest),+))
    };
    ($($few:pat),+ $(,)?) => {
        ($($few),+)
    };
}
