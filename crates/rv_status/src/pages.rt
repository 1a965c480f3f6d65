//! The answers over HTTP: which page a request is for, and what answers it.
ghost use Rattle.std.specs.Prelude.{◌≡◌, IfOk, OnOk};
ghost use Rattle.http_server.specs.Response.{IsBlank, IsResponse};
ghost use Rattle.rv_status.specs.Pages.{
  IsToAnswerBy,
  IsShown,
  fields_for,
  page_body,
  page_code,
  page_for,
  page_of,
  page_named,
  page_type,
  ready_code,
  ready_word,
};

use crate::hosts::is_own;
use crate::members::status_json;
use crate::metrics::metrics_of;
use crate::numbers::StatusNumbers;
use crate::page::PAGE;
use crate::status::HostStatus;
use bytes::Bytes;
use http::{HeaderName, HeaderValue, Request, StatusCode};
use http_server::{Response, Service};
use std::alloc::{AllocError, Global};

/// What a request is for.
#[derive(Clone, Copy)]
pub enum StatusPage {
    /// The page for people.
    Front,
    /// The status as JSON.
    Status,
    /// The metrics.
    Metrics,
    /// Whether the server takes its turns.
    Health,
    /// Whether it takes new clients, items and connections.
    Ready,
    /// A page of another host.
    Elsewhere,
    /// There is no such page.
    Unknown,
    /// Its method neither gets a page nor asks for its head.
    NotAllowed,
}

/// What a server shows over HTTP at one moment.
#[derive(Clone, Copy)]
pub struct StatusPages<'a> {
    /// Its memory.
    pub alloc: Global,
    /// The status that it shows.
    pub status: &'a HostStatus,
    /// The names under which it can be asked for, beside `localhost` and each address.
    pub names: &'a [String],
}

impl Service for StatusPages<'_> {
    ghost use Rattle.rv_status.specs.declared.pages.StatusPage.{StatusPage};

    ghost answers = { λ old request response new.
        (new ≡ old) × (page : StatusPage) × IsToAnswerBy old.names.now request page
        × IsShown old.status.now page response };

    fn call(
        &mut self,
        request: &Request<Bytes>,
        response: &mut Response,
    ) -> Result<(), AllocError> {
        show(
            self.alloc,
            self.status,
            asked(request, self.names),
            response,
        )
    }
}

// The page that a request is for, if the server has these names.
fn asked(request: &Request<Bytes>, names: &[String]) -> StatusPage
    ensures { IsToAnswerBy names.now request.now result }
{
    if is_own(request, names) {
        here(request)
    } else {
        StatusPage::Elsewhere
    }
}

// That of a request for this server.
fn here(request: &Request<Bytes>) -> StatusPage
    ensures { result ≡ page_of request.now }
{
    page_of(request.method().as_str(), request.uri().path())
}

// That of a method and a path.
fn page_of(method: &str, path: &str) -> StatusPage
    ensures { result ≡ page_for method.now path.now }
{
    if method == "GET" || method == "HEAD" {
        page_at(path)
    } else {
        StatusPage::NotAllowed
    }
}

// The page of a path.
fn page_at(path: &str) -> StatusPage
    ensures { result ≡ page_named path.now }
{
    if path == "/" {
        StatusPage::Front
    } else if path == "/status.json" {
        StatusPage::Status
    } else if path == "/metrics" {
        StatusPage::Metrics
    } else if path == "/healthz" {
        StatusPage::Health
    } else if path == "/readyz" {
        StatusPage::Ready
    } else {
        StatusPage::Unknown
    }
}

// Answers with a page. Fails only if memory was refused.
fn show(
    alloc: Global,
    status: &HostStatus,
    page: StatusPage,
    response: &mut Response,
) -> Result<(), AllocError>
    requires { IsBlank response.old }
    ensures { OnOk result (IsShown status.now page response.new) }
{
    let body = page.body(alloc, status)?;
    fill(response, page, &status.numbers, body)
}

// Fills a response with a page's status, its fields, and this body.
fn fill(
    response: &mut Response,
    page: StatusPage,
    numbers: &StatusNumbers,
    body: Bytes,
) -> Result<(), AllocError>
    requires { IsBlank response.old }
    ensures { OnOk result (IsResponse (page_code numbers.now page) (fields_for page) body response.new) }
{
    response.status = page.code(numbers);
    response.add_header(HeaderName::from_static("content-type"), page.content_type())?;
    response.add_header(
        HeaderName::from_static("cache-control"),
        HeaderValue::from_static("no-store"),
    )?;
    response.add_header(
        HeaderName::from_static("allow"),
        HeaderValue::from_static("GET, HEAD"),
    )?;
    response.add_header(
        HeaderName::from_static("connection"),
        HeaderValue::from_static("close"),
    )?;
    response.body.push(body)
}

impl StatusPage {
    // Its status, by these numbers.
    fn code(self, numbers: &StatusNumbers) -> StatusCode
        ensures { result ≡ page_code numbers.now self }
    {
        match self {
            StatusPage::Front => StatusCode::OK,
            StatusPage::Status => StatusCode::OK,
            StatusPage::Metrics => StatusCode::OK,
            StatusPage::Health => StatusCode::OK,
            StatusPage::Ready => ready_code(numbers.is_full()),
            StatusPage::Elsewhere => StatusCode::MISDIRECTED_REQUEST,
            StatusPage::Unknown => StatusCode::NOT_FOUND,
            StatusPage::NotAllowed => StatusCode::METHOD_NOT_ALLOWED,
        }
    }

    // What kind of text its body is.
    fn content_type(self) -> HeaderValue
        ensures { result.bytes ≡ page_type self }
    {
        match self {
            StatusPage::Front => HeaderValue::from_static("text/html; charset=utf-8"),
            StatusPage::Status => HeaderValue::from_static("application/json"),
            StatusPage::Metrics => HeaderValue::from_static("text/plain; version=0.0.4"),
            StatusPage::Health => HeaderValue::from_static("text/plain"),
            StatusPage::Ready => HeaderValue::from_static("text/plain"),
            StatusPage::Elsewhere => HeaderValue::from_static("text/plain"),
            StatusPage::Unknown => HeaderValue::from_static("text/plain"),
            StatusPage::NotAllowed => HeaderValue::from_static("text/plain"),
        }
    }

    // Its body. Fails only if memory was refused.
    fn body(self, alloc: Global, status: &HostStatus) -> Result<Bytes, AllocError>
        ensures { IfOk result (λ body. body ≡ page_body status.now self) }
    {
        match self {
            StatusPage::Front => Ok(Bytes::from_static(PAGE)),
            StatusPage::Status => bytes_of(status_json(alloc, status)?),
            StatusPage::Metrics => bytes_of(metrics_of(alloc, status)?),
            StatusPage::Health => Ok(Bytes::from_static(b"turning\n")),
            StatusPage::Ready => Ok(Bytes::from_static(ready_word(status.numbers.is_full()))),
            StatusPage::Elsewhere => Ok(Bytes::from_static(b"no such host: --status-name\n")),
            StatusPage::Unknown => Ok(Bytes::from_static(b"no such page\n")),
            StatusPage::NotAllowed => Ok(Bytes::from_static(b"GET or HEAD\n")),
        }
    }
}

// A text as a body. Fails only if memory was refused.
fn bytes_of(text: Vec<u8>) -> Result<Bytes, AllocError>
    ensures { IfOk result (λ body. body ≡ text.items) }
{
    Ok(Bytes::from_vec(text)?)
}

// The HTTP status that says whether a server is full.
fn ready_code(is_full: bool) -> StatusCode
    ensures { result ≡ ready_code is_full }
{
    if is_full {
        StatusCode::SERVICE_UNAVAILABLE
    } else {
        StatusCode::OK
    }
}

// The word that says the same.
fn ready_word(is_full: bool) -> &'static [u8]
    ensures { result.now ≡ ready_word is_full }
{
    if is_full { b"full\n" } else { b"ready\n" }
}
