//! How pages look.

/// Calls a macro of yours with the stylesheet, as a literal, and with the literals behind its name: of them
/// `concat!` makes a page that is a constant.
#[macro_export]
macro_rules! with_style {
    ($page:ident $(, $part:literal)*) => {
        $page!(
            "
:root {
    color-scheme: light dark;
    --text: #1b1f24; --soft: #57606a; --page: #fff; --line: #6e7781;
    --main: #0a58ca; --hover: #084298; --on-main: #fff; --fault: #b3151f; --pale: #fff4f3;
}
@media (prefers-color-scheme: dark) {
    :root {
        --text: #e6e8eb; --soft: #a9b1ba; --page: #14171a; --line: #8b949e;
        --main: #7db4ff; --hover: #a8ccff; --on-main: #08203f; --fault: #ff8f87; --pale: #2a1718;
    }
}
*, ::before { box-sizing: border-box }
html { -webkit-text-size-adjust: 100%; text-size-adjust: 100% }
body {
    margin: 0; background: var(--page); color: var(--text);
    font: 100%/1.5 system-ui, sans-serif; overflow-wrap: anywhere;
}
main { margin: 0 auto; padding: 2rem 1rem 4rem; max-width: 34rem }
h1 { margin: 0 0 1.5rem; font-size: 2rem; line-height: 1.2 }
p { margin: 0 0 1rem }
ul { margin: 0; padding: 0; list-style: none }
.summary {
    margin: 0 0 2rem; border: .1875rem solid var(--fault); border-radius: .375rem;
    padding: 1rem 1.25rem; background: var(--pale);
}
.summary h2 { margin: 0 0 .5rem; font-size: 1.25rem; line-height: 1.3 }
.summary li { padding-block: .25rem }
.summary a { color: var(--fault); font-weight: 600; text-underline-offset: .15em }
.field { margin: 0 0 1.5rem }
.field:has(.faults) {
    border-inline-start: .25rem solid var(--fault); padding-inline-start: 1rem;
}
.field > label, legend { display: block; margin: 0 0 .25rem; padding: 0; font-weight: 600 }
.hint { margin: 0 0 .375rem; color: var(--soft) }
.faults { margin: .375rem 0 0; color: var(--fault); font-weight: 600 }
.field > input, .field > textarea, .field > select {
    border: .0625rem solid var(--line); border-radius: .375rem; padding: .5rem .75rem;
    width: 100%; min-height: 2.75rem; background: none; color: inherit; font: inherit;
}
.field > [aria-invalid] { border: .125rem solid var(--fault) }
fieldset { margin: 0; border: 0; padding: 0; min-width: 0 }
fieldset label { display: flex; gap: .75rem; align-items: center; min-height: 2.5rem }
[type=checkbox], [type=radio] {
    display: grid; flex: none; place-content: center; margin: 0; appearance: none;
    border: .125rem solid var(--line); border-radius: .25rem; width: 1.5rem; height: 1.5rem;
}
[type=radio] { border-radius: 50% }
:checked { border-color: var(--main) }
[type=checkbox]:checked::before {
    transform: translateY(-.09375rem) rotate(45deg);
    border: solid var(--main); border-width: 0 .1875rem .1875rem 0;
    width: .4375rem; height: .8125rem; content: '';
}
[type=radio]:checked::before {
    border-radius: 50%; width: .75rem; height: .75rem; background: var(--main); content: '';
}
[type=checkbox][aria-invalid], [aria-invalid] [type=radio] { border-color: var(--fault) }
button {
    border: .125rem solid transparent; border-radius: .375rem; padding: .5rem 1.5rem;
    min-height: 2.75rem; background: var(--main); color: var(--on-main);
    font: inherit; font-weight: 600; cursor: pointer;
}
button:hover { background: var(--hover) }
:focus-visible { outline: .1875rem solid var(--main); outline-offset: .125rem }
"
            $(, $part)*
        )
    };
}

macro_rules! alone {
    ($style:literal) => {
        $style
    };
}

/// The stylesheet of each page, as it stands within `<style>`: light or dark as the reader has it, from
/// 320 pixels on, from either side, in sizes that follow the reader's.
pub const STYLE: &str = with_style!(alone);

/// The field `Content-Security-Policy` of a page with this stylesheet: it loads nothing and has no script,
/// its form is sent to where it came from, and no page frames it. It names the stylesheet by its SHA-256.
pub const POLICY: &str =
    "default-src 'none'; style-src 'sha256-S6DLtyZYt6f8GEJmrKVCq9pgo7uWvklefsoQXalS+lQ='; form-action 'self'; frame-ancestors 'none'; base-uri 'none'";
