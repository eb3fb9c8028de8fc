//! The form as a page, in three languages.
ghost use Rattle.std.specs.Prelude.{◌≡◌, IfOk, map, string_bytes};
ghost use Rattle.garde_form.specs.WebForm.{field_texts};
ghost use Rattle.garde_html.specs.Document.{form_pieces};
ghost use Rattle.garde_html.specs.Page.{rendered};
ghost use Rattle.use_signup.specs.Shown.{IsShown, empty_page};

use garde::{I18n, Report};
use garde_form::FormField;
use garde_html::{Control, Field, Form, form_page, worded_report};
use std::alloc::{AllocError, Global};

/// The fields with these labels, hints and texts of boxes. An empty text of those that are required is a
/// fault, and so is a box of them that is not checked.
macro_rules! fields {
    (
        $name:literal,
        $username:literal($letters:literal),
        $password:literal($length:literal),
        $password_again:literal,
        $age:literal($ages:literal),
        $phone:literal($number:literal),
        $topics:literal($news:literal, $events:literal),
        $terms:literal($accepted:literal)
    ) => {
        &[
            Field {
                name: "name",
                label: $name,
                hint: None,
                autocomplete: Some("name"),
                inputmode: None,
                required: true,
                control: Control::Line("text"),
            },
            Field {
                name: "username",
                label: $username,
                hint: Some($letters),
                autocomplete: Some("username"),
                inputmode: None,
                required: true,
                control: Control::Line("text"),
            },
            Field {
                name: "password",
                label: $password,
                hint: Some($length),
                autocomplete: Some("new-password"),
                inputmode: None,
                required: true,
                control: Control::Password,
            },
            Field {
                name: "password_again",
                label: $password_again,
                hint: None,
                autocomplete: Some("new-password"),
                inputmode: None,
                required: true,
                control: Control::Password,
            },
            Field {
                name: "age",
                label: $age,
                hint: Some($ages),
                autocomplete: None,
                inputmode: Some("numeric"),
                required: true,
                control: Control::Line("text"),
            },
            Field {
                name: "phone",
                label: $phone,
                hint: Some($number),
                autocomplete: Some("tel"),
                inputmode: None,
                required: false,
                control: Control::Line("tel"),
            },
            Field {
                name: "topics",
                label: $topics,
                hint: None,
                autocomplete: None,
                inputmode: None,
                required: false,
                control: Control::Boxes(&[("news", $news), ("events", $events)]),
            },
            Field {
                name: "terms",
                label: $terms,
                hint: None,
                autocomplete: None,
                inputmode: None,
                required: true,
                control: Control::Boxes(&[("on", $accepted)]),
            },
        ]
    };
}

const ENGLISH_FIELDS: &[Field<'static>] = fields!(
    "Name",
    "Username"("3 to 25 letters and digits"),
    "Password"("12 to 128 characters"),
    "Password, once more",
    "Age"("From 18 to 120"),
    "Phone, if you like"("Begins with +, as +420777123456"),
    "Topics"("News", "Events"),
    "Terms"("I accept the terms")
);

const CZECH_FIELDS: &[Field<'static>] = fields!(
    "Jméno",
    "Uživatelské jméno"("3 až 25 písmen a číslic"),
    "Heslo"("12 až 128 znaků"),
    "Heslo ještě jednou",
    "Věk"("Od 18 do 120"),
    "Telefon, není nutný"("Začíná znakem +, jako +420777123456"),
    "Témata"("Zprávy", "Akce"),
    "Podmínky"("Souhlasím s podmínkami")
);

const ARABIC_FIELDS: &[Field<'static>] = fields!(
    "الاسم",
    "اسم المستخدم"("من 3 إلى 25 حرفًا أو رقمًا"),
    "كلمة المرور"("من 12 إلى 128 رمزًا"),
    "كلمة المرور مرة أخرى",
    "العمر"("من 18 إلى 120"),
    "الهاتف (اختياري)"("يبدأ بالرمز \u{200e}+، مثل \u{200e}+420777123456"),
    "المواضيع"("الأخبار", "الفعاليات"),
    "الشروط"("أوافق على الشروط")
);

/// The form in English.
pub const ENGLISH_PAGE: Form<'static> = Form {
    language: "en",
    direction: "ltr",
    title: "Sign up",
    faulty_title: "Please correct: Sign up",
    summary: "Please correct",
    action: "/",
    send: "Sign up",
    fields: ENGLISH_FIELDS,
};

/// The form in Czech.
pub const CZECH_PAGE: Form<'static> = Form {
    language: "cs",
    direction: "ltr",
    title: "Registrace",
    faulty_title: "Opravte prosím: Registrace",
    summary: "Opravte prosím",
    action: "/",
    send: "Registrovat",
    fields: CZECH_FIELDS,
};

/// The form in Arabic.
pub const ARABIC_PAGE: Form<'static> = Form {
    language: "ar",
    direction: "rtl",
    title: "التسجيل",
    faulty_title: "يُرجى التصحيح: التسجيل",
    summary: "يُرجى التصحيح",
    action: "/",
    send: "تسجيل",
    fields: ARABIC_FIELDS,
};

/// Each name that was sent, with its text.
fn typed_of<'a>(
    alloc: Global,
    fields: &'a [FormField<'_>],
) -> Result<Vec<(&'a str, &'a str)>, AllocError>
    ensures { IfOk result (λ typed.
        map (λ t. (t.0.now, t.1.now)) typed.items ≡ field_texts fields.now) }
{
    let mut typed = Vec::new(alloc);
    for (name, text) in fields {
        typed.push((name.as_str(), text.as_str()))?;
    }
    Ok(typed)
}

// The page of a form with what was typed and these faults.
fn write_told(
    alloc: Global,
    form: &Form<'_>,
    typed: &[(&str, &str)],
    told: &Report,
) -> Result<String, AllocError>
    ensures { IfOk result (λ html.
        string_bytes html ≡ rendered (form_pieces form.now typed.now told.now)) }
{
    let page = form_page(alloc, form, typed, told)?;
    page.to_html(alloc)
}

/// The page of a form to which nothing was sent.
pub fn write_page(alloc: Global, form: &Form<'_>) -> Result<String, AllocError>
    ensures { IfOk result (λ html. string_bytes html ≡ empty_page form.now) }
{
    write_told(alloc, form, &[], &Report::new(alloc))
}

/// The page of a form with these fields and these faults, which are worded by the texts of a handler.
pub fn write_faults<H: I18n>(
    alloc: Global,
    form: &Form<'_>,
    fields: &[FormField<'_>],
    report: &Report,
    h: &H,
) -> Result<String, AllocError>
    ensures { IfOk result (λ html. IsShown form.now (H.text h.now) (field_texts fields.now) report.now
        (string_bytes html)) }
{
    let typed = typed_of(alloc, fields)?;
    let told = worded_report(alloc, form.fields, typed.as_slice(), report, h)?;
    write_told(alloc, form, typed.as_slice(), &told)
}
