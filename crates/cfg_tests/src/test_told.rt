//! A configuration told in a line for each entry, as tests compare it.
use cfg_model::{
    Account, Chart, Clerk, Config, Dimension, Field, Kind, Nature, Register, Resource, Right,
    Sequence,
};
use reg_base::Name;
use std::alloc::Global;

// A text that grows piece by piece, until memory is refused.
#[derive(Drop)]
struct Telling {
    text: String,
    is_whole: bool,
}

impl Telling {
    fn add(&mut self, piece: &str) {
        if self.text.push_str(piece).is_err() {
            self.is_whole = false;
        }
    }

    fn add_number(&mut self, number: usize) {
        match format!(in *self.text.allocator(); "{number}") {
            Ok(digits) => self.add(digits.as_str()),
            Err(_) => self.is_whole = false,
        }
    }
}

// A line for each register, ledger, document type, sequence and clerk; none where memory is
// wanted.
pub(crate) fn told(alloc: Global, config: &Config) -> Option<String> {
    let mut out = Telling {
        text: String::new(alloc),
        is_whole: true,
    };
    tell(&mut out, config);
    let Telling { text, is_whole } = out;
    if is_whole { Some(text) } else { None }
}

fn tell(out: &mut Telling, config: &Config) {
    for register in config.registers.as_slice() {
        tell_register(out, register);
    }
    for chart in config.ledgers.as_slice() {
        tell_chart(out, chart);
    }
    for kind in config.kinds.as_slice() {
        tell_kind(out, kind);
    }
    for sequence in config.sequences.as_slice() {
        tell_sequence(out, sequence);
    }
    for clerk in config.clerks.as_slice() {
        tell_clerk(out, clerk);
    }
}

fn tell_register(out: &mut Telling, register: &Register) {
    out.add(register.name.as_str());
    out.add(if register.balance {
        " balance"
    } else {
        " turnover"
    });
    out.add(if register.split { " split" } else { "" });
    for dimension in register.dimensions.as_slice() {
        tell_dimension(out, dimension);
    }
    for resource in register.resources.as_slice() {
        tell_resource(out, resource);
    }
    out.add("\n");
}

fn tell_dimension(out: &mut Telling, dimension: &Dimension) {
    out.add(" ");
    out.add(dimension.name.as_str());
    out.add(if dimension.lot { ":lot" } else { ":code" });
}

fn tell_resource(out: &mut Telling, resource: &Resource) {
    out.add(" ");
    out.add(resource.name.as_str());
    out.add(":");
    out.add_number(usize::from(resource.scale.get()));
}

fn tell_chart(out: &mut Telling, chart: &Chart) {
    out.add(chart.name.as_str());
    out.add(":");
    out.add_number(usize::from(chart.scale.get()));
    out.add(if chart.split { " split" } else { "" });
    for account in chart.accounts.as_slice() {
        tell_account(out, account);
    }
    out.add("\n");
}

fn tell_account(out: &mut Telling, account: &Account) {
    out.add(" ");
    out.add(account.code.as_str());
    out.add(",");
    out.add(account.name.as_str());
    out.add(nature_word(account.nature));
    out.add(if account.off { ",off" } else { "" });
    if let Some(parent) = &account.parent {
        out.add(",of ");
        out.add(parent.as_str());
    }
    tell_names(out, ",", account.extras.as_slice());
}

fn nature_word(nature: Nature) -> &'static str {
    match nature {
        Nature::Active => ",Active",
        Nature::Passive => ",Passive",
        Nature::Both => ",Both",
    }
}

fn tell_names(out: &mut Telling, mark: &str, names: &[Name]) {
    for name in names {
        out.add(mark);
        out.add(name.as_str());
    }
}

fn tell_kind(out: &mut Telling, kind: &Kind) {
    out.add(kind.name.as_str());
    tell_fields(out, kind.head.as_slice());
    out.add(" |");
    tell_fields(out, kind.lines.as_slice());
    out.add(" | ");
    out.add_number(kind.rules.as_str().len());
    out.add("\n");
}

fn tell_fields(out: &mut Telling, fields: &[Field]) {
    for field in fields {
        tell_field(out, field);
    }
}

fn tell_field(out: &mut Telling, field: &Field) {
    out.add(" ");
    out.add(field.name.as_str());
    match &field.scale {
        Some(scale) => {
            out.add(":");
            out.add_number(usize::from(scale.get()));
        }
        None => out.add(":code"),
    }
}

fn tell_sequence(out: &mut Telling, sequence: &Sequence) {
    out.add(sequence.name.as_str());
    tell_names(out, " ", sequence.kinds.as_slice());
    out.add(" |");
    tell_names(out, " ", sequence.registers.as_slice());
    out.add(" |");
    tell_names(out, " ", sequence.dimensions.as_slice());
    out.add("\n");
}

fn tell_clerk(out: &mut Telling, clerk: &Clerk) {
    out.add(clerk.name.as_str());
    tell_rights(out, clerk.rights.as_slice());
    out.add("\n");
}

fn tell_rights(out: &mut Telling, rights: &[Right]) {
    for right in rights {
        out.add(" ");
        out.add(right.word());
    }
}
