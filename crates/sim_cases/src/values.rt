//! Values and names as texts: `Bit#1` is a literal by its type and position, `@15` an object by its number, `!`
//! follows what is globally static, and what has no meaning is `?`.

use crate::out::Out;
use vhdl_units::{ChoiceValue, ItemValue, LinkValue, PartValue, Reference, Value};

fn push_static(out: &mut Out, is_static: bool) {
    if is_static {
        out.put("!");
    }
}

#[cycle(push)]
pub fn push_value(out: &mut Out, value: &Value) {
    match value {
        Value::Unknown => out.put("?"),
        Value::Integer(number) => {
            out.show(number);
        }
        Value::Time(time) => {
            out.show(time);
            out.put("fs");
        }
        Value::Literal(base, position) => {
            out.show(base);
            out.put("#");
            out.show(position);
        }
        Value::Text(base, bytes) => {
            out.show(base);
            out.put("\"");
            out.bytes(bytes.as_slice());
            out.put("\"");
        }
        Value::Object(reference) => push_reference(out, reference),
        Value::Attribute(reference, attribute) => {
            push_reference(out, reference);
            out.put("'");
            out.show(attribute);
        }
        Value::Call(function, argument) => {
            out.show(function);
            out.put("(");
            push_value(out, argument.get());
            out.put(")");
        }
        Value::Now => out.put("Now"),
        Value::Position(base, inner) => {
            out.show(base);
            out.put("'pos(");
            push_value(out, inner.get());
            out.put(")");
        }
        Value::At(base, inner) => {
            out.show(base);
            out.put("'val(");
            push_value(out, inner.get());
            out.put(")");
        }
        Value::Unary(operator, base, inner) => {
            out.show(operator);
            out.put(":");
            out.show(base);
            out.put("(");
            push_value(out, inner.get());
            out.put(")");
        }
        Value::Chain(base, first, links) => {
            out.show(base);
            out.put("[");
            push_value(out, first.get());
            push_links(out, links.as_slice());
            out.put("]");
        }
        Value::Aggregate(base, items) => {
            out.show(base);
            out.put("{");
            push_items(out, items.as_slice());
            out.put("}");
        }
    }
}

#[cycle(push)]
pub fn push_reference(out: &mut Out, reference: &Reference) {
    let number = reference.object.number;
    out.put("@");
    out.show(number);
    for part in reference.parts.as_slice() {
        push_part(out, part);
    }
}

#[cycle(push)]
fn push_part(out: &mut Out, part: &PartValue) {
    match part {
        PartValue::Index(index, is_static) => {
            out.put("(");
            push_value(out, index);
            push_static(out, *is_static);
            out.put(")");
        }
        PartValue::Slice(left, direction, right, is_static) => {
            out.put("(");
            push_value(out, left);
            out.put(" ");
            out.show(direction);
            out.put(" ");
            push_value(out, right);
            push_static(out, *is_static);
            out.put(")");
        }
    }
}

#[cycle(push)]
fn push_links(out: &mut Out, links: &[LinkValue]) {
    for link in links {
        let operator = link.operator;
        out.put(" ");
        out.show(operator);
        out.put(" ");
        push_value(out, &link.right);
    }
}

#[cycle(push)]
fn push_items(out: &mut Out, items: &[ItemValue]) {
    for item in items {
        push_choices(out, item.choices.as_slice());
        push_value(out, &item.value);
        out.put(",");
    }
}

#[cycle(push)]
pub fn push_choices(out: &mut Out, choices: &[ChoiceValue]) {
    for choice in choices {
        match choice {
            ChoiceValue::Value(value) => push_value(out, value),
            ChoiceValue::Range(left, direction, right) => {
                push_value(out, left);
                out.put(" ");
                out.show(direction);
                out.put(" ");
                push_value(out, right);
            }
            ChoiceValue::Others => out.put("others"),
        }
        out.put("=>");
    }
}
